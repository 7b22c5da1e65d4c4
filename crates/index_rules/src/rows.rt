//! Rows of the tables, and takers of them.
ghost use Rattle.std.specs.Prelude.{◌≡◌, false, IsTrue};

use crate::answer::Fault;
use crate::records::NameRecord;
use index_digest::Digest256;
use index_names::{FileName, NormalName, Release};
use index_text::Text;
use std::alloc::AllocError;

/// A name that is not free, with its record.
#[derive(Clone, Debug)]
pub struct NameRow {
    pub name: NormalName,
    pub record: NameRecord,
}

// By hand: each exit of a function then makes one call to drop (docs/developers/PROOF-COSTS.md).
impl Drop for NameRow {
    fn drop(self) {
        let NameRow {
            name: _name,
            record: _record,
        } = self;
    }
}

/// An undeleted file of a project.
#[derive(Clone, Debug)]
pub struct FileRow {
    pub file: FileName,
    pub release: Release,
    /// The SHA-256 digest of the body and its size in bytes.
    pub digest: Digest256,
    pub size: u64,
    /// The Python versions that the last upload declared, or nothing.
    pub requires_python: Text,
    /// Why the release is yanked, if it is. The reason may be empty (PEP 592).
    pub yanked: Option<Text>,
}

impl Drop for FileRow {
    fn drop(self) {
        let FileRow {
            file: _file,
            release: _release,
            digest: _digest,
            size: _size,
            requires_python: _requires_python,
            yanked: _yanked,
        } = self;
    }
}

/// A taker of rows, one at a time.
pub trait Taker<R> {
    /// What the taker is after a row that it takes.
    ghost takes: { Self → R → Self → Type 0 };

    /// What the taker is after a row that it stops at.
    ghost stops: { Self → R → Self → Type 0 };

    /// Takes a row; or returns `false`, and wants no more rows.
    fn take(&mut self, row: &R) -> bool
        ensures took { IsTrue result → takes self.old row.now self.new }
        ensures stopped { result ≡ false → stops self.old row.now self.new };
}

/// Why a walk over rows ended before the last of them was taken.
#[derive(Clone, Copy, Debug, PartialEq, Eq, Hash)]
pub enum WalkEnd {
    /// The taker wanted no more rows.
    Stopped,
    OutOfMemory,
    Store,
}

impl From<Fault> for WalkEnd {
    ghost use Rattle.index_rules.specs.Walks.{walk_end_of};

    ghost from_gives = { λ fault end. end ≡ walk_end_of fault };

    fn from(fault: Fault) -> WalkEnd {
        match fault {
            Fault::OutOfMemory => WalkEnd::OutOfMemory,
            Fault::Store => WalkEnd::Store,
        }
    }
}

impl From<AllocError> for WalkEnd {
    ghost use Rattle.index_rules.specs.declared.rows.WalkEnd.TheVariants.{OutOfMemory};

    ghost from_gives = { λ _ end. end ≡ OutOfMemory };

    fn from(_error: AllocError) -> WalkEnd {
        WalkEnd::OutOfMemory
    }
}
