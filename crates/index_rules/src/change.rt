//! What an accepted call writes.
use crate::project::Project;
use crate::records::{CaseRecord, FileRecord, UserRecord};
use crate::user::UserId;
use index_digest::Sealed;
use index_names::{FileName, NormalName, Release};
use index_text::Text;

/// What an accepted call writes, with the new records whole. All changes except those on users and quotas, `BanFile`,
/// `OpenCase` and `RecordAttempt` also end the name's open case; `Upload` says whether there is one to end.
#[derive(Drop)]
pub enum Change {
    /// The user has this record.
    AddUser {
        user: UserId,
        record: UserRecord,
    },
    SetToken {
        user: UserId,
        record: UserRecord,
    },
    /// The name is held, with this record.
    SetQuota {
        name: NormalName,
        project: Project,
    },
    /// The name is held, the user alone owns it, and no release of it is yanked.
    Claim {
        name: NormalName,
        project: Project,
        owner: UserId,
    },
    AddOwner {
        name: NormalName,
        user: UserId,
    },
    RemoveOwner {
        name: NormalName,
        user: UserId,
    },
    /// The name and the file have these records, and the bytes are stored. If `ends_case`, the name's case ends.
    Upload {
        name: NormalName,
        project: Project,
        file: FileName,
        record: FileRecord,
        body: Sealed,
        ends_case: bool,
    },
    /// The name and the file have these records, and the bytes are deleted.
    Delete {
        name: NormalName,
        project: Project,
        file: FileName,
        record: FileRecord,
    },
    /// The file is banned and has this record, and its bytes are deleted. If the ban deletes it, the name has the
    /// record `project`.
    BanFile {
        name: NormalName,
        project: Option<Project>,
        file: FileName,
        record: FileRecord,
    },
    /// The release is yanked, for this reason.
    Yank {
        name: NormalName,
        release: Release,
        reason: Text,
    },
    Unyank {
        name: NormalName,
        release: Release,
    },
    /// The name is free, without owners and yanks.
    Relinquish {
        name: NormalName,
    },
    /// The name is prohibited, without owners and yanks, and its files are deleted.
    Prohibit {
        name: NormalName,
    },
    /// The name is free, without owners and yanks.
    Allow {
        name: NormalName,
    },
    /// The name has this open case.
    OpenCase {
        name: NormalName,
        case: CaseRecord,
    },
    RecordAttempt {
        name: NormalName,
        case: CaseRecord,
    },
    /// The candidate alone owns the name, and the case ends.
    Transfer {
        name: NormalName,
        candidate: UserId,
    },
    /// The case ends.
    CloseCase {
        name: NormalName,
    },
    AnswerCase {
        name: NormalName,
    },
}
