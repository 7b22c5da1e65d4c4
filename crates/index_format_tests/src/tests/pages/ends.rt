//! Pages that end early.
use super::{file_row, name};
use index_io::Output;
use index_names::NormalName;
use index_pages::{PageEnd, PageText, ProjectPage, Served};
use index_rules::{FileRow, Taker};
use index_test_support::{ShortWriter, project_json};
use std::alloc::AllocGlobal;
use std::process::Abort;

const PAGE: &str = project_json!(
    r#"{"filename":"frob-1.0.tar.gz","hashes":{"sha256":"ba7816bf8f01cfea414140de5dae2223b00361a396177a9cb410ff61f20015ad"},"size":3,"url":"/files/frob/frob-1.0.tar.gz"}"#,
    "frob",
    r#""1.0""#
);

/// How many of its bytes stand before the bracket behind the files.
const FIRST_ROW: usize = 172;

/// A writer that takes this many bytes, and then none.
fn full_output(rt: &impl AllocGlobal, size: usize) -> Output<ShortWriter> {
    Output::new(ShortWriter {
        taken: Vec::new(rt.alloc()),
        room: size,
        at_a_time: usize::MAX,
        fails: false,
    })
}

/// The output is a front of the page, of this many bytes, and one write failed.
fn assert_front(rt: &impl Abort, output: &Output<ShortWriter>, size: usize) {
    assert_eq!(rt; output.failures, 1);
    assert_eq!(rt; output.writer.taken.len(), size);
    assert!(rt; PAGE.as_bytes().starts_with(output.writer.taken.as_slice()));
}

/// A page of one file ends when its writer is full, whether or not the row was taken.
fn assert_ends(
    rt: &impl Abort,
    page: PageText<'_, '_, Output<ShortWriter>, ProjectPage, Vec<u8>>,
    row: &FileRow,
    size: usize,
) {
    let mut page = page;
    assert_eq!(rt; page.take(row), size >= FIRST_ROW);
    assert_eq!(rt; page.written(), size.min(FIRST_ROW) as u64);
    assert_eq!(rt; page.finish(), Err(PageEnd::WriteFault(size as u64)));
}

/// A writer that takes this many bytes cuts the page there.
fn assert_cut(rt: &(impl Abort + AllocGlobal), frob: &NormalName, row: &FileRow, size: usize) {
    let mut output = full_output(rt, size);
    let page = PageText::project(rt.alloc(), frob, Served::Json, &mut output);
    assert_ends(rt, page, row, size);
    assert_front(rt, &output, size);
}

#[test]
fn cut_at_each_byte(rt: HostRuntime) {
    let frob = name(&rt, "frob");
    let row = file_row(&rt, "frob-1.0.tar.gz", "", None);
    for size in 0..PAGE.len() {
        assert_cut(&rt, &frob, &row, size);
    }
}

/// After a row that was not taken no other is taken, and nothing more is written.
fn assert_stopped(rt: &(impl Abort + AllocGlobal), frob: &NormalName, row: &FileRow) {
    let mut output = full_output(rt, 120);
    let mut page = PageText::project(rt.alloc(), frob, Served::Json, &mut output);
    assert!(rt; !page.take(row));
    assert!(rt; !page.take(row));
    let ended = page.finish();
    assert_eq!(rt; ended, Err(PageEnd::WriteFault(120)));
    assert_front(rt, &output, 120);
}

#[test]
fn stopped_for_good(rt: HostRuntime) {
    let frob = name(&rt, "frob");
    let row = file_row(&rt, "frob-1.0.tar.gz", "", None);
    assert_stopped(&rt, &frob, &row);
}

#[test]
fn counts_of_ends(rt: HostRuntime) {
    assert_eq!(rt; PageEnd::OutOfMemory(1).count(), 1);
    assert_eq!(rt; PageEnd::Store(2).count(), 2);
    assert_eq!(rt; PageEnd::WriteFault(3).count(), 3);
}
