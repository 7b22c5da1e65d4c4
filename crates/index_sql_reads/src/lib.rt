//! Look-ups in the tables of an index in SQLite, and walks over them, which pass on one row at a time.
#![tactic(auto)]

mod body;
mod columns;
mod from_row;
mod lookups;
mod views;
mod walk;

pub use body::{find_body, find_stored};
pub use lookups::{files_of, is_held, names};
pub use views::view;
pub use walk::{walk_files, walk_held, walk_stored};
