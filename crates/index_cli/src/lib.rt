//! Answers lines of JSON, and connections over HTTP.
#![tactic(auto)]

mod apply;
mod connections;
mod end;
mod input;
mod listening;
mod output;
mod reply;
mod serve;

pub use apply::apply_lines;
pub use connections::{Connection, Connections};
pub use end::{LineEnd, ServeEnd};
pub use listening::Listening;
pub use serve::answer_connections;
