//! Letters, wheels, reflectors, models, refusals, the words of lines, and the traits for reading and writing bytes.
#![tactic(auto)]

mod direction;
pub mod laws;
mod letter;
mod line_words;
mod lug;
mod model;
mod pairs;
mod place;
mod ports;
mod published_text;
mod reading;
mod reflector;
mod refusal;
mod ring;
mod standing;
mod variant_names;
mod wheel;

pub use direction::Direction;
pub use letter::Letter;
pub use line_words::{
    is_word, letter_of_text, number_of_text, push_letter, push_number, split_once, split_words,
    wide_number_of_text,
};
pub use lug::Lug;
pub use model::{Family, Model, allowed, allowed_reflector, in_box};
pub use pairs::{have_no_letter_twice, is_apart};
pub use place::Place;
pub use ports::{
    Device, Failed, MemorySink, MemorySource, READ_LIMIT, Sink, Source, WriteFault, is_at_end,
    put_all,
};
pub use reading::Reading;
pub use reflector::{Reflector, reflecting};
pub use refusal::{Refusal, RefusalText};
pub use ring::{Ring, place_on_wheel, ring1, ring2, ring3, ring4, ring5, ring6};
pub use standing::Standing;
pub use wheel::{Wheel, notched, unwiring, wiring};
