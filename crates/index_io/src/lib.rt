//! Input and output of bytes, with a count of failures.
#![tactic(auto)]

mod sink;
mod source;

pub use sink::{Output, Sink, write_bytes, write_pieces};
pub use source::{Failed, Input, Source, next_byte};
