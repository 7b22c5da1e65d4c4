//! The records of the tables, without their keys.
use crate::project::Project;
use crate::user::UserId;
use index_digest::Digest256;
use index_names::{NormalName, Release};
use index_retention::{CaseKind, CaseState};
use index_text::Text;

/// The record of a user.
#[derive(Clone, Copy, Debug)]
pub struct UserRecord {
    /// Whether the user is of the office.
    pub office: bool,
    /// The SHA-256 digest of the user's token.
    pub token: Digest256,
}

/// The record of a name that is not free.
#[derive(Clone, Debug, Drop)]
pub enum NameRecord {
    Held(Project),
    Prohibited,
}

/// An open case (PEP 541).
#[derive(Clone, Debug)]
pub struct CaseRecord {
    pub kind: CaseKind,
    /// The user who opened the case, and gets the name at a transfer.
    pub candidate: UserId,
    /// How the owner was sought in vain.
    pub contact: Text,
    /// Improvements in a fork, or the existing notable project.
    pub work: Text,
    /// Why no other name will do.
    pub why: Text,
    /// When the case was opened, in Unix seconds.
    pub opened: u64,
    /// Its attempts to reach the owner.
    pub state: CaseState,
}

// By hand: each exit of a function then makes one call to drop (docs/developers/PROOF-COSTS.md).
impl Drop for CaseRecord {
    fn drop(self) {
        let CaseRecord {
            kind: _kind,
            candidate: _candidate,
            contact: _contact,
            work: _work,
            why: _why,
            opened: _opened,
            state: _state,
        } = self;
    }
}

/// The permanent record of a file name that was once accepted.
#[derive(Clone, Debug)]
pub struct FileRecord {
    /// The project and the release that the file name spells.
    pub project: NormalName,
    pub release: Release,
    /// The SHA-256 digest of the body and its size in bytes, to which the file name is bound.
    pub digest: Digest256,
    pub size: u64,
    /// The Python versions that the last upload declared.
    pub requires_python: Text,
    pub is_undeleted: bool,
}

impl Drop for FileRecord {
    fn drop(self) {
        let FileRecord {
            project: _project,
            release: _release,
            digest: _digest,
            size: _size,
            requires_python: _requires_python,
            is_undeleted: _is_undeleted,
        } = self;
    }
}
