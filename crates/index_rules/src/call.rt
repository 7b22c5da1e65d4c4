//! Calls: a request, with its moment and its caller.
use crate::bytes::Bytes;
use index_digest::Digest256;
use index_retention::{CaseKind, Means};

/// What is asked. Names, digests and texts are bytes that are not parsed yet.
#[derive(Drop)]
pub enum Request {
    /// The office adds a user, whose token has this SHA-256 digest.
    AddUser {
        user: Bytes,
        office: bool,
        token: Bytes,
    },
    /// The office replaces the digest of a user's token.
    SetToken {
        user: Bytes,
        token: Bytes,
    },
    /// The office sets how many bytes the undeleted files of a project may have.
    SetQuota {
        name: Bytes,
        quota: u64,
    },
    /// The caller takes a free name.
    Claim {
        name: Bytes,
    },
    /// An owner makes a user one more owner.
    AddOwner {
        name: Bytes,
        user: Bytes,
    },
    /// An owner takes a user from the owners.
    RemoveOwner {
        name: Bytes,
        user: Bytes,
    },
    /// An owner uploads a file to the project that its name spells.
    Upload {
        file: Bytes,
        sha256: Bytes,
        body: Bytes,
        requires_python: Bytes,
    },
    /// An owner deletes a file. Its name stays bound to its digest and size.
    Delete {
        file: Bytes,
    },
    /// The office bans for good a file that was once accepted. If the file is undeleted, it is deleted.
    BanFile {
        file: Bytes,
    },
    /// An owner yanks a release, for a reason (PEP 592).
    Yank {
        name: Bytes,
        release: Bytes,
        reason: Bytes,
    },
    /// An owner takes a yank back.
    Unyank {
        name: Bytes,
        release: Bytes,
    },
    /// An owner gives up a name without undeleted files: it is free.
    Relinquish {
        name: Bytes,
    },
    /// The office prohibits a name, whose files are deleted.
    Prohibit {
        name: Bytes,
    },
    /// The office allows a prohibited name: it is free.
    Allow {
        name: Bytes,
    },
    /// A candidate opens a case on a held name (PEP 541): its kind, how the owner was sought in vain, the candidate's
    /// work, and why no other name will do.
    OpenCase {
        name: Bytes,
        kind: CaseKind,
        contact: Bytes,
        work: Bytes,
        why: Bytes,
    },
    /// The office records an attempt to reach the owner; `sent` is false if the means has no address.
    RecordAttempt {
        name: Bytes,
        means: Means,
        sent: bool,
    },
    /// The office transfers the name to the candidate; `quiet` is its statement that the owner's home page shows no
    /// activity, or that none is listed.
    Transfer {
        name: Bytes,
        quiet: bool,
    },
    /// The office or the candidate closes the case.
    CloseCase {
        name: Bytes,
    },
    /// An owner answers the case, which ends it.
    AnswerCase {
        name: Bytes,
    },
}

/// A request at a moment, in Unix seconds, by the user whose token has this SHA-256 digest.
#[derive(Drop)]
pub struct Call {
    pub at: u64,
    pub token: Digest256,
    pub request: Request,
}
