//! Pages that show, step by step, how an operator enciphers or deciphers a message by hand on the real machine.
#![tactic(auto)]

mod booklet;
mod clash_words;
mod counted;
mod form_sheet;
mod groups;
pub mod laws;
mod lone_parts;
mod notes;
mod order;
mod page_options;
mod received_work;
mod receiving;
mod sending;
mod text_sheet;
pub mod texts;
mod unread;

pub use booklet::{OrderFault, OrderFile, write_send_booklet};
pub use page_options::PageOptions;
pub use receiving::write_receive_page;
pub use sending::write_send_page;
