//! Reads and writes cards. A card has settings that set a machine to a day, and prices. The prices can prove that fewer
//! settings aren't enough.
#![tactic(auto)]

mod card;
mod card_reader;
mod card_writer;
mod fault;
mod kind_text;
mod kinds;
pub mod laws;
mod loose;
mod price_text;
mod prices;

pub use card::Card;
pub use card_reader::read_card;
pub use card_writer::write_card;
pub use fault::CardFault;
pub use kinds::{BarKind, CableKind, Kind, KindOf, PairKind, RowKind};
pub use loose::count::loose_count;
pub use loose::pin::pin_settings;
pub use loose::push_unless;
pub use loose::rotor::rotor_settings;
pub use prices::{PriceParts, Prices, Version, sum_of_prices};
