//! A volume that stops at its first call, its second, and so on, and what a crash then leaves of it.
use super::files::{EACH_OUTCOME, File, Image, Outcome, file};
use super::placed::PlacedBooks;
use super::{FIRST, SECOND, THIRD, adopted, assert_bytes, assert_lost, new_placed, put, upload};
use index_plain::PlainBooks;
use index_rules::{Books, Fault};
use index_volume_books::{Ends, TakeFault, VolumeBooks};
use std::alloc::AllocGlobal;
use std::process::Abort;

/// The calls of a volume: to take it, and to add bytes of a file.
const TO_TAKE: u64 = 2;

const TO_ADD: u64 = 2;

/// Takes a volume that stops after so many calls, uploads two files to it, and crashes.
fn assert_stop<B: Ends + Drop>(
    rt: &(impl Abort + AllocGlobal),
    below: B,
    calls: u64,
    outcome: Outcome,
) {
    match VolumeBooks::adopt(rt.alloc(), below, file(rt, &[], calls)) {
        Ok(books) => {
            assert!(rt; calls >= TO_TAKE);
            assert_uploads(rt, books, calls - TO_TAKE, outcome);
        }
        Err(untaken) => {
            assert!(rt;
                calls < TO_TAKE && untaken.why == TakeFault::Store,
                "{calls}"
            );
            drop(untaken);
        }
    }
}

/// Uploads two files to a volume that stops after so many calls, and crashes.
fn assert_uploads<B: Ends + Drop>(
    rt: &(impl Abort + AllocGlobal),
    books: VolumeBooks<B, File>,
    calls: u64,
    outcome: Outcome,
) {
    let mut books = books;
    let has_first = tries(rt, &mut books, FIRST, b"abc");
    assert!(rt; has_first == (calls >= TO_ADD), "{calls}");
    let has_second = tries(rt, &mut books, SECOND, b"defg");
    assert!(rt; has_second == (calls >= TO_ADD + TO_ADD), "{calls}");
    let (below, disk) = books.into_parts();
    let left = Image::new(rt, disk).left(rt, outcome);
    let mut books = adopted(rt, below, left);
    assert_bytes(
        rt,
        &mut books,
        FIRST,
        has_first.then_some(b"abc".as_slice()),
    );
    assert_bytes(
        rt,
        &mut books,
        SECOND,
        has_second.then_some(b"defg".as_slice()),
    );
    put(rt, &mut books, THIRD, b"hi");
    assert_bytes(rt, &mut books, THIRD, Some(b"hi"));
    drop(books);
}

/// Whether the upload of these bytes succeeds. If not, the volume failed, and no bytes are found.
fn tries<B: Books>(
    rt: &(impl Abort + AllocGlobal),
    books: &mut B,
    file: &str,
    bytes: &[u8],
) -> bool {
    let change = upload(rt, file, bytes);
    match books.write(rt.alloc(), change) {
        Ok(()) => true,
        Err(fault) => {
            assert!(rt; fault == Fault::Store, "{file}");
            assert_bytes(rt, books, file, None);
            false
        }
    }
}

#[test]
fn what_was_accepted_is_left_whenever_the_volume_stops(rt: HostRuntime) {
    for calls in 0..=TO_TAKE + TO_ADD + TO_ADD {
        for outcome in EACH_OUTCOME {
            assert_stop(&rt, new_placed(&rt), calls, *outcome);
        }
    }
}

/// An upload that was made and then reported as failed has its place for itself.
fn assert_made(rt: &(impl Abort + AllocGlobal), below: PlacedBooks<PlainBooks>) {
    let mut below = below;
    below.write_faults = 1;
    let mut books = adopted(rt, below, file(rt, &[], u64::MAX));
    let change = upload(rt, FIRST, b"abc");
    assert!(rt; books.write(rt.alloc(), change) == Err(Fault::Store));
    put(rt, &mut books, SECOND, b"de");
    assert_bytes(rt, &mut books, FIRST, Some(b"abc"));
    assert_bytes(rt, &mut books, SECOND, Some(b"de"));
    assert!(rt; books.failure_count() == 1);
    drop(books);
}

#[test]
fn an_upload_that_was_reported_as_failed_keeps_its_place(rt: HostRuntime) {
    assert_made(&rt, new_placed(&rt));
}

/// A volume that stops as it is read has no bytes of a file, and they are there when it is taken again.
fn assert_read<B: Ends + Drop>(rt: &(impl Abort + AllocGlobal), below: B) {
    let mut books = adopted(rt, below, file(rt, &[], TO_TAKE + TO_ADD));
    put(rt, &mut books, FIRST, b"abc");
    assert_lost(rt, &mut books, FIRST);
    assert_bytes(rt, &mut books, SECOND, None);
    assert!(rt; books.failure_count() == 1);
    let (below, disk) = books.into_parts();
    let left = Image::new(rt, disk).left(rt, Outcome::Kept);
    let mut books = adopted(rt, below, left);
    assert_bytes(rt, &mut books, FIRST, Some(b"abc"));
    assert!(rt; books.failure_count() == 0);
    drop(books);
}

#[test]
fn a_volume_that_stops_has_no_bytes(rt: HostRuntime) {
    assert_read(&rt, new_placed(&rt));
}
