//! The tables of the index in a database of SQLite.
#![tactic(auto)]

mod adopt;
pub mod books;
mod create;
pub mod laws;
mod opening;
mod placed;
mod places;
pub mod version;

pub use opening::Unopened;

/// The tables of an index with the bytes of its files beside them, which `meta` says by version 2.
pub type SqlBooks<S> = books::SqlBooks<S, version::Version2>;
