//! Volumes that are not taken together with books, and bytes that rotted.
use super::files::file;
use super::placed::PlacedBooks;
use super::{FIRST, SECOND, adopted, assert_bytes, assert_lost, new_placed, put};
use index_plain::PlainBooks;
use index_rules::{Books, Fault};
use index_volume_books::{Ends, TakeFault, Untaken, VolumeBooks};
use std::alloc::AllocGlobal;
use std::process::Abort;

/// Books with two files, and the bytes of their volume: `abc` and `de`.
fn two_files(rt: &(impl Abort + AllocGlobal)) -> PlacedBooks<PlainBooks> {
    let mut books = adopted(rt, new_placed(rt), file(rt, &[], u64::MAX));
    put(rt, &mut books, FIRST, b"abc");
    put(rt, &mut books, SECOND, b"de");
    let (below, disk) = books.into_parts();
    assert_eq!(rt; disk.inner().bytes(), b"abcde".as_slice());
    below
}

/// The volume with these bytes is refused for this reason. The books come back, and so does the volume as it was.
fn refused<B: Ends + Drop>(
    rt: &(impl Abort + AllocGlobal),
    below: B,
    bytes: &[u8],
    want: TakeFault,
) -> B {
    match VolumeBooks::adopt(rt.alloc(), below, file(rt, bytes, u64::MAX)) {
        Ok(books) => {
            drop(books);
            panic!(rt; "a volume was taken that is {want:?}")
        }
        Err(Untaken { why, books, disk }) => {
            assert!(rt; why == want, "{why:?}");
            assert_eq!(rt; disk.inner().bytes(), bytes);
            books
        }
    }
}

/// Books that refused a volume take their own.
fn assert_taken<B: Ends + Drop>(rt: &(impl Abort + AllocGlobal), below: B) {
    let mut books = adopted(rt, below, file(rt, b"abcde", u64::MAX));
    assert_bytes(rt, &mut books, FIRST, Some(b"abc"));
    assert_bytes(rt, &mut books, SECOND, Some(b"de"));
    drop(books);
}

/// A volume is refused if it was cut, wherever that was.
fn assert_cuts<B: Ends + Drop>(rt: &(impl Abort + AllocGlobal), below: B) {
    let mut below = below;
    below = refused(rt, below, b"", TakeFault::TooShort);
    below = refused(rt, below, b"abc", TakeFault::TooShort);
    below = refused(rt, below, b"abcd", TakeFault::TooShort);
    assert_taken(rt, below);
}

#[test]
fn a_volume_that_is_too_short_is_refused(rt: HostRuntime) {
    assert_cuts(&rt, two_files(&rt));
}

/// A volume is refused if the bytes of the last file are others.
fn assert_others<B: Ends + Drop>(rt: &(impl Abort + AllocGlobal), below: B) {
    let mut below = below;
    below = refused(rt, below, b"abcdE", TakeFault::OtherVolume);
    below = refused(rt, below, b"ABCDEFGH", TakeFault::OtherVolume);
    assert_taken(rt, below);
}

#[test]
fn another_volume_is_refused(rt: HostRuntime) {
    assert_others(&rt, two_files(&rt));
}

/// Bytes that rotted are not found, and all others are.
fn assert_rotten<B: Ends + Drop>(rt: &(impl Abort + AllocGlobal), below: B, bytes: &[u8]) {
    let mut books = adopted(rt, below, file(rt, bytes, u64::MAX));
    assert_lost(rt, &mut books, FIRST);
    assert_bytes(rt, &mut books, SECOND, Some(b"de"));
    assert!(rt; books.failure_count() == 1);
    drop(books);
}

#[test]
fn bytes_that_rotted_are_not_found(rt: HostRuntime) {
    assert_rotten(&rt, two_files(&rt), b"Abcde");
    assert_rotten(&rt, two_files(&rt), b"abCde");
}

/// Books that have no place, but these three bytes.
fn assert_no_place<B: Ends + Drop>(rt: &(impl Abort + AllocGlobal), below: B) {
    let mut below = below;
    put(rt, &mut below, FIRST, b"abc");
    drop(refused(rt, below, b"abc", TakeFault::Store));
}

#[test]
fn a_text_that_is_no_place_is_refused(rt: HostRuntime) {
    assert_no_place(&rt, new_placed(&rt));
}

/// Books of which each look fails take no volume.
fn assert_failing(rt: &(impl Abort + AllocGlobal), below: PlacedBooks<PlainBooks>) {
    let mut below = below;
    below.look_fault = Some(Fault::OutOfMemory);
    below = refused(rt, below, b"abcde", TakeFault::OutOfMemory);
    below.look_fault = Some(Fault::Store);
    below = refused(rt, below, b"abcde", TakeFault::Store);
    assert!(rt; below.failure_count() == 2);
    below.look_fault = None;
    assert_taken(rt, below);
}

#[test]
fn books_that_fail_take_no_volume(rt: HostRuntime) {
    assert_failing(&rt, two_files(&rt));
}

/// A volume of which the read of the last file fails is not taken. It stops after its length and its sync.
fn assert_unread<B: Ends + Drop>(rt: &(impl Abort + AllocGlobal), below: B) {
    match VolumeBooks::adopt(rt.alloc(), below, file(rt, b"abcde", 2)) {
        Ok(books) => {
            drop(books);
            panic!(rt; "a volume was taken that can't be read")
        }
        Err(untaken) => {
            assert!(rt; untaken.why == TakeFault::Store);
            drop(untaken);
        }
    }
}

#[test]
fn a_volume_that_cannot_be_read_is_refused(rt: HostRuntime) {
    assert_unread(&rt, two_files(&rt));
}
