//! The command line of the index.
#![tactic(auto)]

mod command;
mod job;

pub use job::{ArgsEnd, Job, Paths, ServeArgs, read_args};
