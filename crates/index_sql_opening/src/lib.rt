//! Opening an index in an SQLite database: whether a database is one, how a new one is made, and how one of version 1
//! becomes one of version 2.
#![tactic(auto)]

mod connections;
mod migration;
mod names;
mod new_index;
mod recognition;
mod same;
mod tables;
mod versions;

pub use connections::expose_invariants;
pub use migration::migrate;
pub use names::{has_any_table, has_meta, has_table, has_version_1_tables};
pub use new_index::fill_new;
pub use recognition::{is_blank, is_first_version, is_ours};
pub use versions::{read_version, told_version};
