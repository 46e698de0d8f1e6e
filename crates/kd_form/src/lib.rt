//! Messages: typed texts, orders and forms. Each is enciphered or deciphered while its bytes arrive.
//!
//! The modules `typing`, `sending` and `receiving` each have the reader of one kind of message. The module `stream`
//! feeds a reader with the bytes of a source, and writes the reader's output to a sink.
#![tactic(auto)]

pub mod bounded_list;
pub mod day_machine;
mod fault;
pub mod heading;
pub mod internal_key;
pub mod keys;
pub mod laws;
pub mod machine_check;
pub mod receiving;
pub mod sending;
mod stream;
pub mod text_bytes;
mod typing;

pub use fault::FormFault;
pub use receiving::{receive, receive_stream};
pub use sending::{send, send_stream};
pub use typing::type_stream;
