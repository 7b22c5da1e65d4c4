//! One connection over HTTP: its message is read, applied or looked up, and answered.
#![tactic(auto)]

mod change;
mod connection;
mod get;
pub mod laws;
mod page_passes;
mod page_replies;
mod page_text;
mod reply;
mod send;

pub use connection::{IoEnd, answer_one};
