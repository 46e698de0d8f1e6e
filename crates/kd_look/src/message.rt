//! Looks at messages as far as possible without a machine.

pub mod fault;
pub mod form;
pub mod form_heading;
pub mod groups;
pub mod order;
pub mod order_head;
pub mod signs;
pub mod words;
