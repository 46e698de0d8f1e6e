//! Tests of messages that are sent and received at once, and as streams.
mod failing;
mod long_texts;
mod messages;
mod samples;
