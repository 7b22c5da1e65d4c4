//! Changes of a project and its files, from constants.
use index_digest::{Digest256, Sealed};
use index_names::{FileName, NormalName, normal};
use index_rules::{Change, FileRecord, Project, UserId};
use index_text::Text;
use std::alloc::AllocGlobal;
use std::process::Abort;

pub(super) fn name(rt: &(impl Abort + AllocGlobal), text: &str) -> NormalName {
    normal(rt.alloc(), text.as_bytes()).expect(rt, text)
}

pub(super) fn file_name(rt: &(impl Abort + AllocGlobal), text: &str) -> FileName {
    FileName::read(rt.alloc(), text.as_bytes()).expect(rt, text)
}

fn text(rt: &(impl Abort + AllocGlobal), text: &str) -> Text {
    Text::new(String::from_str(rt.alloc(), text).expect(rt, text))
}

/// A project of one gibibyte, without files.
fn project(rt: &(impl Abort + AllocGlobal)) -> Project {
    let shown = text(rt, "Frob");
    Project::from_parts(shown, 1_073_741_824, 0, 0, None).expect(rt, "a project")
}

pub(super) fn claim(rt: &(impl Abort + AllocGlobal)) -> Change {
    Change::Claim {
        name: name(rt, "frob"),
        project: project(rt),
        owner: UserId::read(rt.alloc(), b"office").expect(rt, "a user"),
    }
}

/// The record of a file with these bytes.
fn record(
    rt: &(impl Abort + AllocGlobal),
    file: &FileName,
    bytes: &[u8],
    is_undeleted: bool,
) -> FileRecord {
    FileRecord {
        project: file.project().clone().expect(rt, "a project"),
        release: file.release().clone().expect(rt, "a release"),
        digest: Digest256::of(bytes),
        size: bytes.len() as u64,
        requires_python: text(rt, ""),
        is_undeleted,
    }
}

/// An upload of these bytes.
pub(super) fn upload(rt: &(impl Abort + AllocGlobal), file: &str, bytes: &[u8]) -> Change {
    let body = Vec::from_slice(rt.alloc(), bytes).expect(rt, file);
    let file = file_name(rt, file);
    Change::Upload {
        name: name(rt, "frob"),
        project: project(rt),
        record: record(rt, &file, bytes, true),
        file,
        body: Sealed::new(body, Digest256::of(bytes)).expect(rt, "another digest"),
        ends_case: false,
    }
}

/// The deletion of a file with these bytes, the only one of its project.
pub(super) fn delete(rt: &(impl Abort + AllocGlobal), file: &str, bytes: &[u8]) -> Change {
    let file = file_name(rt, file);
    Change::Delete {
        name: name(rt, "frob"),
        project: project(rt),
        record: record(rt, &file, bytes, false),
        file,
    }
}
