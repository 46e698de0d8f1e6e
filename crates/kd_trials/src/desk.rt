//! Tests of the desk's six calls, on files in memory and on sources that never end; of texts of faults that no run
//! says; and of the host's ports.
mod calls;
mod fault;
mod ports;
