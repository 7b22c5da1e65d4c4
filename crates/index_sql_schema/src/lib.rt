//! The tables of an index in SQLite: their schema, what their rows stand for, what each statement does to
//! them, and one look at them.
#![tactic(auto)]

mod connection;
pub mod statement_texts;
pub mod table_texts;

pub use connection::{IndexConnection, fault_of, look};
