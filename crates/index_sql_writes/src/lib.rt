//! Accepted changes of the index as statements on its tables in SQLite, one transaction for each change.
#![tactic(auto)]

mod change;
mod files;
mod names;
mod put_case;
mod statements;
mod step;
mod users;

pub use change::make_change;
pub use statements::{put_user, run_statement};
