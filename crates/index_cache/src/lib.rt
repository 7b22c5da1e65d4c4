//! A cache of files and pages over the books of an index.
#![tactic(auto)]

mod cache;
mod entries;

pub use cache::Cache;
