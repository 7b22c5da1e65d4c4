//! Project names, releases and file names of a Python package index, read from bytes.
//!
//! Bytes are read exactly if the grammar has them (`NAMES.md`). A project name is read as its normal form (PEP 503), a
//! version text as its release. The name of a wheel (PEP 427) or a source archive (PEP 625) is read as the one project,
//! release and kind that it spells.
#![tactic(auto)]

mod fault;
mod file_name;
pub mod laws;
mod project;
mod release;
mod wheel;

pub use fault::NameFault;
pub use file_name::{FileKind, FileName, is_file_name};
pub use project::{NormalName, is_name, normal};
pub use release::{Release, is_version, release_key};
