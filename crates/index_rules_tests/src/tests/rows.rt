//! The rows of a desk: whole lists, walks, the check and the report.
use super::desk::{assert_answer, desk_with_frob};
use super::requests::{claim, prohibit, upload, yank};
use super::{OF_ABC, name, new_books};
use index_desk::{Desk, ReportFault};
use index_io::Output;
use index_rules::{Answer, Books, FileRow, NameRow, Taker, WalkEnd};
use index_test_support::ShortWriter;
use std::alloc::AllocGlobal;
use std::process::Abort;

/// ann's name `frob` has a file of three bytes, whose release is yanked, and `nest` has none. `spam` is prohibited.
fn desk_with_file<B: Books>(rt: &(impl Abort + AllocGlobal), books: B) -> Desk<B> {
    let mut desk = desk_with_frob(rt, books);
    let body = Vec::from_slice(rt.alloc(), b"abc").expect(rt, "a body");
    let request = upload(rt, "frob-1.0.tar.gz", OF_ABC, body);
    assert_answer(rt, &mut desk, "abc", request, Answer::Accepted);
    let request = yank(rt, b"broken");
    assert_answer(rt, &mut desk, "abc", request, Answer::Accepted);
    let request = claim(rt, "nest");
    assert_answer(rt, &mut desk, "abc", request, Answer::Accepted);
    let request = prohibit(rt, "spam");
    assert_answer(rt, &mut desk, "office", request, Answer::Accepted);
    desk
}

/// Takes this many rows, and keeps the names in them.
struct Shown {
    names: String,
    room: usize,
}

impl Drop for Shown {
    fn drop(self) {
        let Shown {
            names: _names,
            room: _room,
        } = self;
    }
}

impl Shown {
    fn new(rt: &(impl Abort + AllocGlobal), room: usize) -> Shown {
        Shown {
            names: String::new(rt.alloc()),
            room,
        }
    }

    fn keep(&mut self, name: &str) -> bool {
        if self.room == 0 {
            return false;
        }
        self.room -= 1;
        self.names.push_str(name).is_ok() && self.names.push_str(" ").is_ok()
    }
}

impl Taker<NameRow> for Shown {
    ghost use Rattle.std.specs.Prelude.{⊤};

    ghost takes = { λ _ _ _. ⊤ };

    ghost stops = { λ _ _ _. ⊤ };

    fn take(&mut self, row: &NameRow) -> bool {
        self.keep(row.name.text())
    }
}

impl Taker<FileRow> for Shown {
    ghost use Rattle.std.specs.Prelude.{⊤};

    ghost takes = { λ _ _ _. ⊤ };

    ghost stops = { λ _ _ _. ⊤ };

    fn take(&mut self, row: &FileRow) -> bool {
        self.keep(row.file.text())
    }
}

/// A walk over the held names passes these to a taker with this much room, and ends like this.
fn assert_root<B: Books + Drop>(
    rt: &(impl Abort + AllocGlobal),
    books: B,
    room: usize,
    names: &str,
    want: Result<(), WalkEnd>,
) {
    let mut desk = desk_with_file(rt, books);
    let mut shown = Shown::new(rt, room);
    let ended = desk.walk_root(rt.alloc(), &mut shown);
    assert!(rt; ended == want && shown.names.as_str() == names);
}

#[test]
fn a_walk_shows_the_held_names(rt: HostRuntime) {
    assert_root(&rt, new_books(&rt), 9, "frob nest ", Ok(()));
    assert_root(&rt, new_books(&rt), 2, "frob nest ", Ok(()));
    assert_root(&rt, new_books(&rt), 1, "frob ", Err(WalkEnd::Stopped));
    assert_root(&rt, new_books(&rt), 0, "", Err(WalkEnd::Stopped));
}

/// A walk over the files of a name passes these to a taker with this much room, and ends like this.
fn assert_project<B: Books + Drop>(
    rt: &(impl Abort + AllocGlobal),
    books: B,
    text: &str,
    room: usize,
    files: &str,
    want: Result<bool, WalkEnd>,
) {
    let mut desk = desk_with_file(rt, books);
    let mut shown = Shown::new(rt, room);
    let name = name(rt, text);
    let ended = desk.walk_project(rt.alloc(), &name, &mut shown);
    assert!(rt; ended == want && shown.names.as_str() == files);
}

#[test]
fn a_walk_shows_the_files_of_a_held_name(rt: HostRuntime) {
    assert_project(&rt, new_books(&rt), "frob", 9, "frob-1.0.tar.gz ", Ok(true));
    assert_project(&rt, new_books(&rt), "frob", 0, "", Err(WalkEnd::Stopped));
    assert_project(&rt, new_books(&rt), "nest", 0, "", Ok(true));
    assert_project(&rt, new_books(&rt), "spam", 9, "", Ok(false));
    assert_project(&rt, new_books(&rt), "eggs", 9, "", Ok(false));
}

/// The held names that are listed.
fn held_names<B: Books + Drop>(rt: &(impl Abort + AllocGlobal), books: B) -> Vec<NameRow> {
    let mut desk = desk_with_file(rt, books);
    desk.root_rows(rt.alloc()).expect(rt, "rows")
}

fn assert_names(rt: &(impl Abort + AllocGlobal), rows: &[NameRow], names: &str) {
    let mut shown = Shown::new(rt, 9);
    for row in rows {
        assert!(rt; Taker::take(&mut shown, row));
    }
    assert!(rt; shown.names.as_str() == names);
}

#[test]
fn the_held_names_are_listed(rt: HostRuntime) {
    let rows = held_names(&rt, new_books(&rt));
    assert_names(&rt, rows.as_slice(), "frob nest ");
}

/// Whether this is the row of the one file.
fn is_row(row: &FileRow) -> bool {
    let is_yanked = row
        .yanked
        .as_ref()
        .is_some_and(|reason| reason.as_str() == "broken");
    let is_known = row.file.text() == "frob-1.0.tar.gz" && row.release.text() == "1.0";
    is_yanked && is_known && row.size == 3 && row.requires_python.as_str().is_empty()
}

/// The number of files that are listed of a name, each with the row of the one file; `None` if the name is not held.
fn listed<B: Books + Drop>(rt: &(impl Abort + AllocGlobal), books: B, text: &str) -> Option<usize> {
    let mut desk = desk_with_file(rt, books);
    let name = name(rt, text);
    let rows = desk.project_rows(rt.alloc(), &name).expect(rt, text);
    let count = rows.as_ref().map(|rows| {
        let is_each = rows.iter().all(is_row);
        if is_each { rows.len() } else { usize::MAX }
    });
    drop(rows);
    count
}

#[test]
fn the_files_of_a_held_name_are_listed(rt: HostRuntime) {
    assert!(rt; listed(&rt, new_books(&rt), "frob") == Some(1));
    assert!(rt; listed(&rt, new_books(&rt), "nest") == Some(0));
    assert!(rt; listed(&rt, new_books(&rt), "spam").is_none());
    assert!(rt; listed(&rt, new_books(&rt), "eggs").is_none());
}

fn assert_check<B: Books + Drop>(rt: &(impl Abort + AllocGlobal), books: B) {
    let mut desk = desk_with_file(rt, books);
    assert!(rt; desk.check(rt.alloc()) == Ok(0));
}

#[test]
fn no_charge_is_wrong(rt: HostRuntime) {
    assert_check(&rt, new_books(&rt));
}

const REPORT: &str = "\
frob                     held              1              3     1073741824
nest                     held              0              0     1073741824
spam                     prohibited        0              0              0
";

/// A report to a writer that takes this many bytes ends like this, and these bytes are written.
fn assert_report<B: Books + Drop>(
    rt: &(impl Abort + AllocGlobal),
    books: B,
    room: usize,
    want: Result<(), ReportFault>,
) {
    let mut desk = desk_with_file(rt, books);
    let mut output = Output::new(ShortWriter {
        taken: Vec::new(rt.alloc()),
        room,
        at_a_time: 50,
        fails: true,
    });
    let ended = desk.report(rt.alloc(), &mut output);
    let count = REPORT.len().min(room);
    let is_taken = output.writer.taken.as_slice() == &REPORT.as_bytes()[..count];
    assert!(rt; ended == want && is_taken);
}

#[test]
fn a_report_has_a_line_for_each_name(rt: HostRuntime) {
    assert_report(&rt, new_books(&rt), 1000, Ok(()));
    assert_report(&rt, new_books(&rt), 225, Ok(()));
    assert_report(&rt, new_books(&rt), 224, Err(ReportFault::WriteFault(224)));
    assert_report(&rt, new_books(&rt), 0, Err(ReportFault::WriteFault(0)));
}
