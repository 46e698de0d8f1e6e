//! Tables of machines: with a table, a text is typed by looking letters up instead of pressing keys.
#![tactic(auto)]

mod around;
pub mod laws;
mod machine_rows;
mod pin_rows;
mod pin_text;
mod rotor_rows;
mod rotor_text;
mod row_line;

pub use machine_rows::MachineRows;
pub use pin_rows::PinRows;
pub use rotor_rows::RotorRows;
