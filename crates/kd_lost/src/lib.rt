//! Reads all parts of a form in which letters were lost on the air, as far as this is possible without guessing.
//!
//! A lost letter is a `?` or `-`, and a small letter means its capital letter. In the text of a part, lost letters stay
//! lost. A part whose keys were lost isn't read. Parts may come twice or in another order. This crate also says which
//! parts are shown, and whether the shown parts are one whole message.
#![tactic(auto)]

mod body;
mod by_count;
mod clash;
mod copies;
mod damage;
mod damaged_text;
mod form;
mod heading_line;
pub mod laws;
mod lines;
mod one_message;
mod part;
mod received;
mod repetitions;
mod short_group;
mod short_line;
mod shown_parts;
mod texts;
mod tidy;
mod warnings;
mod wrong_sign;

pub use by_count::{heading_count, part_line};
pub use clash::{Clash, Difference, clash_of};
pub use damage::PartDamage;
pub use damaged_text::{DamagedText, GroupTest, LostCopies, PinTextKeys, TextKeys};
pub use form::{DamagedFormFault, read_damaged_form};
pub use one_message::are_of_one_message;
pub use part::{DamagedPart, PartNumbers, read_damaged_part};
pub use short_line::ShortLine;
pub use shown_parts::{
    are_in_order, is_any_read, is_one_message, is_whole, shown_under, times_of, total_of,
};
pub use texts::{is_wrong_day, shown_text};
pub use wrong_sign::WrongSign;
