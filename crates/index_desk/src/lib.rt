//! The desk of the index: it takes calls in order over any books, and reads the tables.
#![tactic(auto)]

mod desk;
pub mod laws;

pub use desk::{Desk, ReportFault};
