//! The machine on the desk, single settings, the days of a key sheet, and the ciphers of machines and days.
#![tactic(auto)]

mod costs;
mod engine;
pub mod laws;
mod machine;
mod numbered_items;
mod prover_facts;
mod setting;
mod sheet_day;

pub use costs::tables::{bar_costs, cable_costs, column_at};
pub use costs::{bar_cost, cable_cost, lies_in_column, nearest_standing};
pub use engine::{Engine, NotReady, ReadyWheels, own_engine, ready_wheels};
pub use machine::Machine;
pub use machine::cable::{Cable, are_new_and_distinct, letters_in_order, lies_in};
pub use machine::one_model::OneModel;
pub use machine::parts::Parts;
pub use machine::per_slot::PerSlot;
pub use machine::per_wheel::PerWheel;
pub use machine::pin_parts::{PinParts, readings_of};
pub use machine::rotor_parts::RotorParts;
pub use setting::Setting;
pub use setting::carry_list::carry_all;
pub use setting::list::{ListFault, Settings, read_list, split_settings};
pub use setting::why::{Illegal, IllegalAt, Why};
pub use sheet_day::SheetDay;
pub use sheet_day::entry::{Entry, day_of_text};
pub use sheet_day::pin_entry::PinEntry;
pub use sheet_day::rotor_entry::{RotorEntry, SheetWheel};
