//! The looks that find no bytes, and the other changes: they go through to the books below.
use super::changes::{claim, delete, file_name, name};
use super::{FIRST, SECOND, assert_bytes, new_books, new_volume_books, put};
use index_digest::Digest256;
use index_rules::{Books, Change, FileRow, Keys, NameRecord, NameRow, Taker, WalkEnd};
use std::alloc::AllocGlobal;
use std::process::Abort;

/// Takes this many rows of what is expected, and counts them.
#[derive(Drop)]
struct Counted {
    rows: usize,
    room: usize,
}

impl Counted {
    fn count(&mut self, is_expected: bool) -> bool {
        if self.rows >= self.room || !is_expected {
            return false;
        }
        self.rows += 1;
        true
    }
}

impl Taker<NameRow> for Counted {
    ghost use Rattle.std.specs.Prelude.{⊤};

    ghost takes = { λ _ _ _. ⊤ };

    ghost stops = { λ _ _ _. ⊤ };

    fn take(&mut self, row: &NameRow) -> bool {
        self.count(row.name.text() == "frob")
    }
}

impl Taker<FileRow> for Counted {
    ghost use Rattle.std.specs.Prelude.{⊤};

    ghost takes = { λ _ _ _. ⊤ };

    ghost stops = { λ _ _ _. ⊤ };

    fn take(&mut self, row: &FileRow) -> bool {
        self.count(row.file.text() == FIRST || row.file.text() == SECOND)
    }
}

fn write<B: Books>(rt: &(impl Abort + AllocGlobal), books: &mut B, change: Change) {
    books.write(rt.alloc(), change).expect(rt, "a change");
}

/// The views of the project and of its files.
fn assert_views<B: Books>(rt: &(impl Abort + AllocGlobal), books: &mut B) {
    let keys = Keys::of_name(&name(rt, "frob")).expect(rt, "keys");
    let view = books.view(rt.alloc(), &keys).expect(rt, "a view");
    let is_shown = match &view.name {
        Some(NameRecord::Held(project)) => project.shown().as_str() == "Frob",
        _ => false,
    };
    assert!(rt; is_shown);
    assert!(rt; books.is_held(rt.alloc(), &name(rt, "frob")) == Ok(true));
    assert!(rt; books.is_held(rt.alloc(), &name(rt, "nest")) == Ok(false));
}

/// The digest that the record of the file has is that of its bytes, and not that of a place.
fn assert_record<B: Books>(rt: &(impl Abort + AllocGlobal), books: &mut B, bytes: &[u8]) {
    let keys = Keys {
        caller: None,
        user: None,
        token: None,
        name: None,
        file: Some(file_name(rt, FIRST)),
        release: None,
    };
    let view = books.view(rt.alloc(), &keys).expect(rt, "a view");
    let record = view.file.as_ref().expect(rt, "a record");
    assert!(rt; record.digest == Digest256::of(bytes));
    assert!(rt; record.size == bytes.len() as u64);
}

/// A list and a walk of the names, and of the project's files, each have this many rows.
fn assert_rows<B: Books>(rt: &(impl Abort + AllocGlobal), books: &mut B, files: usize) {
    let frob = name(rt, "frob");
    let names = books.names(rt.alloc()).expect(rt, "names");
    assert_eq!(rt; names.len(), 1);
    let rows = books.files_of(rt.alloc(), &frob).expect(rt, "files");
    assert_eq!(rt; rows.len(), files);
    let mut counted = Counted { rows: 0, room: 9 };
    assert!(rt; books.walk_held(rt.alloc(), &mut counted) == Ok(()));
    assert_eq!(rt; counted.rows, 1);
    let mut counted = Counted { rows: 0, room: 9 };
    assert!(rt; books.walk_files(rt.alloc(), &frob, &mut counted) == Ok(()));
    assert_eq!(rt; counted.rows, files);
}

/// A taker that wants no rows ends each walk, and that is no failure.
fn assert_stops<B: Books>(rt: &(impl Abort + AllocGlobal), books: &mut B) {
    let frob = name(rt, "frob");
    let mut counted = Counted { rows: 0, room: 0 };
    let ended = books.walk_held(rt.alloc(), &mut counted);
    assert!(rt; ended == Err(WalkEnd::Stopped));
    let ended = books.walk_files(rt.alloc(), &frob, &mut counted);
    assert!(rt; ended == Err(WalkEnd::Stopped));
    assert!(rt; books.failure_count() == 0);
}

/// Each look finds a claim, two uploads and a deletion.
fn assert_looks<B: Books + Drop>(rt: &(impl Abort + AllocGlobal), books: B) {
    let mut books = books;
    write(rt, &mut books, claim(rt));
    assert_views(rt, &mut books);
    assert_rows(rt, &mut books, 0);
    put(rt, &mut books, FIRST, b"abc");
    put(rt, &mut books, SECOND, b"de");
    assert_record(rt, &mut books, b"abc");
    assert_rows(rt, &mut books, 2);
    assert_stops(rt, &mut books);
    write(rt, &mut books, delete(rt, SECOND, b"de"));
    assert_rows(rt, &mut books, 1);
    assert_bytes(rt, &mut books, FIRST, Some(b"abc"));
    assert_bytes(rt, &mut books, SECOND, None);
    assert!(rt; books.failure_count() == 0);
}

#[test]
fn looks_find_the_same_over_a_volume(rt: HostRuntime) {
    assert_looks(&rt, new_books(&rt));
    assert_looks(&rt, new_volume_books(&rt));
}
