//! Requests, answers and standings as JSON.
#![tactic(auto)]

mod answer;
mod line;
mod object_reader;
mod request;
mod standing;

pub use answer::{answer_text, bad_body};
pub use line::{Line, read_line, read_request};
pub use standing::standing_text;
