//! Rows, and the pages that they make.
use index_digest::Digest256;
use index_io::Output;
use index_names::{FileName, NormalName, normal};
use index_pages::{PageText, Served, project_page, root_page};
use index_rules::{FileRow, NameRecord, NameRow, Project, Taker};
use index_text::Text;
use std::alloc::AllocGlobal;
use std::process::Abort;

mod choices;
mod ends;
mod names;
mod projects;

fn text(rt: &(impl Abort + AllocGlobal), text: &str) -> Text {
    Text::new(String::from_str(rt.alloc(), text).expect(rt, text))
}

fn name(rt: &(impl Abort + AllocGlobal), name: &str) -> NormalName {
    normal(rt.alloc(), name.as_bytes()).expect(rt, name)
}

/// A name that is held in this spelling.
fn held(rt: &(impl Abort + AllocGlobal), shown: &str) -> NameRow {
    let project = Project::from_parts(text(rt, shown), 0, 0, 0, None).expect(rt, shown);
    NameRow {
        name: name(rt, shown),
        record: NameRecord::Held(project),
    }
}

/// A file of the three bytes `abc`.
fn file_row(
    rt: &(impl Abort + AllocGlobal),
    file: &str,
    requires_python: &str,
    yanked: Option<Text>,
) -> FileRow {
    let file = FileName::read(rt.alloc(), file.as_bytes()).expect(rt, file);
    FileRow {
        release: file.release().clone().expect(rt, "a release"),
        file,
        digest: Digest256::of(b"abc"),
        size: 3,
        requires_python: text(rt, requires_python),
        yanked,
    }
}

fn take_names<K: Taker<NameRow>>(rt: &impl Abort, taker: &mut K, rows: &[NameRow]) {
    for row in rows {
        assert!(rt; taker.take(row));
    }
}

fn take_files<K: Taker<FileRow>>(rt: &impl Abort, taker: &mut K, rows: &[FileRow]) {
    for row in rows {
        assert!(rt; taker.take(row));
    }
}

/// The page of the names is this text: made whole, and written row by row.
fn assert_names(rt: &(impl Abort + AllocGlobal), rows: &[NameRow], served: Served, expected: &str) {
    assert_names_whole(rt, rows, served, expected);
    assert_names_written(rt, rows, served, expected);
}

fn assert_names_whole(
    rt: &(impl Abort + AllocGlobal),
    rows: &[NameRow],
    served: Served,
    expected: &str,
) {
    let whole = root_page(rt.alloc(), rows, served).expect(rt, "a page");
    assert_eq!(rt; whole.as_slice(), expected.as_bytes());
}

fn assert_names_written(
    rt: &(impl Abort + AllocGlobal),
    rows: &[NameRow],
    served: Served,
    expected: &str,
) {
    let mut output = Output::new(Vec::new(rt.alloc()));
    let mut page = PageText::root(rt.alloc(), served, &mut output);
    take_names(rt, &mut page, rows);
    assert_eq!(rt; page.finish(), Ok(expected.len() as u64));
    assert_eq!(rt; output.writer.as_slice(), expected.as_bytes());
}

/// The page of a project with these files is this text: made whole, and written row by row.
fn assert_files(
    rt: &(impl Abort + AllocGlobal),
    project: &NormalName,
    rows: &[FileRow],
    served: Served,
    expected: &str,
) {
    assert_files_whole(rt, project, rows, served, expected);
    assert_files_written(rt, project, rows, served, expected);
}

fn assert_files_whole(
    rt: &(impl Abort + AllocGlobal),
    project: &NormalName,
    rows: &[FileRow],
    served: Served,
    expected: &str,
) {
    let whole = project_page(rt.alloc(), project, rows, served).expect(rt, "a page");
    assert_eq!(rt; whole.as_slice(), expected.as_bytes());
}

fn assert_files_written(
    rt: &(impl Abort + AllocGlobal),
    project: &NormalName,
    rows: &[FileRow],
    served: Served,
    expected: &str,
) {
    let mut output = Output::new(Vec::new(rt.alloc()));
    let mut page = PageText::project(rt.alloc(), project, served, &mut output);
    take_files(rt, &mut page, rows);
    assert_eq!(rt; page.finish(), Ok(expected.len() as u64));
    assert_eq!(rt; output.writer.as_slice(), expected.as_bytes());
}
