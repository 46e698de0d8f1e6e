//! Parses a file once, and reads the whole file or single keys from the file's table.

pub use crate::document::{find_at, parse_table};
pub use crate::machine_reader::{box_letters_in, machine_in};
pub use crate::sheet_reader::day_entry::{rings_in, window_in};
pub use crate::sheet_reader::sheet_in;
pub use crate::values::bars::bars_in;
pub use crate::values::cables::cables_in;
pub use crate::values::groups::groups_in;
pub use crate::values::letters::letters_at;
pub use crate::values::model::model_in;
pub use crate::values::numbers::number_at;
pub use crate::values::pairs::pairs_in;
pub use crate::values::pin_wheels::{pins_in, shown_letters_in};
pub use crate::values::reflector::reflector_in;
pub use crate::values::rows::rows_in;
pub use crate::values::slots::slots_in;
