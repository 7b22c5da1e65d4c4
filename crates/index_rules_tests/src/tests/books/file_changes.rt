//! Changes of files and releases.
use super::changes::{QUOTA, project, project_with};
use crate::tests::{file_name, name, release, text, token};
use index_digest::Sealed;
use index_names::{FileName, NormalName};
use index_rules::{Change, FileRecord, Project};
use std::alloc::AllocGlobal;
use std::process::Abort;

/// The project that the name of a file decides.
fn project_of(rt: &impl Abort, file: &FileName) -> NormalName {
    file.project().clone().expect(rt, "a project")
}

/// A record of three bytes.
fn record(rt: &(impl Abort + AllocGlobal), file: &FileName, is_undeleted: bool) -> FileRecord {
    FileRecord {
        project: project_of(rt, file),
        release: file.release().clone().expect(rt, "a release"),
        digest: token("abc"),
        size: 3,
        requires_python: text(rt, ">=3.9"),
        is_undeleted,
    }
}

/// The bytes `abc`.
fn sealed(rt: &(impl Abort + AllocGlobal)) -> Sealed {
    let body = Vec::from_slice(rt.alloc(), b"abc").expect(rt, "a body");
    Sealed::new(body, token("abc")).expect(rt, "another digest")
}

/// An upload of these bytes, under this spelling of the project, whose name has no case.
pub(super) fn upload(rt: &(impl Abort + AllocGlobal), shown: &str, text: &str) -> Change {
    let file = file_name(rt, text);
    Change::Upload {
        name: project_of(rt, &file),
        project: project(rt, shown),
        record: record(rt, &file, true),
        file,
        body: sealed(rt),
        ends_case: false,
    }
}

/// The deletion of a file of flask, which has one file left.
pub(super) fn delete(rt: &(impl Abort + AllocGlobal), text: &str) -> Change {
    let file = file_name(rt, text);
    Change::Delete {
        name: project_of(rt, &file),
        project: project_with(rt, "Flask", QUOTA, 3, 1),
        record: record(rt, &file, false),
        file,
    }
}

/// The ban of a file, whose name is left as this project, or as it was.
pub(super) fn ban_file(
    rt: &(impl Abort + AllocGlobal),
    project: Option<Project>,
    text: &str,
) -> Change {
    let file = file_name(rt, text);
    Change::BanFile {
        name: project_of(rt, &file),
        project,
        record: record(rt, &file, false),
        file,
    }
}

/// A yank of a release for a reason.
pub(super) fn yank(rt: &(impl Abort + AllocGlobal), project: &str, yanked: &str) -> Change {
    let (version, reason) = yanked.split_once(' ').expect(rt, yanked);
    Change::Yank {
        name: name(rt, project),
        release: release(rt, version),
        reason: text(rt, reason),
    }
}

pub(super) fn unyank(rt: &(impl Abort + AllocGlobal), project: &str, version: &str) -> Change {
    Change::Unyank {
        name: name(rt, project),
        release: release(rt, version),
    }
}
