//! The tables of the index as ordered maps in memory.
#![tactic(auto)]

mod accounts;
mod key;
mod name_files;
mod pairs;
mod plain;
mod table;

pub use plain::PlainBooks;
