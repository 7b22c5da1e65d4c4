//! Books over a volume: each body is a place in the books below, and its bytes lie in the volume.
use changes::{delete, file_name, upload};
use files::{File, file};
use index_digest::Digest256;
use index_plain::PlainBooks;
use index_rules::{Books, Fault};
use index_volume_books::{Ends, Places, VolumeBooks};
use placed::PlacedBooks;
use std::alloc::AllocGlobal;
use std::process::Abort;

mod changes;
mod files;
mod looks;
mod placed;
mod refusals;
mod stops;

const FIRST: &str = "frob-1.0.tar.gz";

const SECOND: &str = "frob-2.0.tar.gz";

const THIRD: &str = "frob-3.0.tar.gz";

/// Tables in memory with one user.
fn new_books(rt: &(impl Abort + AllocGlobal)) -> PlainBooks {
    let opened = PlainBooks::new(rt.alloc(), b"office", Digest256::of(b"office"));
    opened.expect(rt, "books")
}

/// Books whose bodies are places, of which there are none.
fn new_placed(rt: &(impl Abort + AllocGlobal)) -> PlacedBooks<PlainBooks> {
    PlacedBooks::new(rt.alloc(), new_books(rt))
}

/// Books over others and a volume.
fn adopted<B: Ends + Drop>(
    rt: &(impl Abort + AllocGlobal),
    below: B,
    disk: File,
) -> VolumeBooks<B, File> {
    match VolumeBooks::adopt(rt.alloc(), below, disk) {
        Ok(books) => books,
        Err(untaken) => {
            let why = untaken.why;
            drop(untaken);
            panic!(rt; "{why:?}")
        }
    }
}

/// New books over an empty volume.
fn new_volume_books(rt: &(impl Abort + AllocGlobal)) -> VolumeBooks<PlacedBooks<PlainBooks>, File> {
    adopted(rt, new_placed(rt), file(rt, &[], u64::MAX))
}

/// The upload of these bytes succeeds.
fn put<B: Books>(rt: &(impl Abort + AllocGlobal), books: &mut B, file: &str, bytes: &[u8]) {
    let change = upload(rt, file, bytes);
    books.write(rt.alloc(), change).expect(rt, file);
}

/// The file has these bytes.
fn assert_bytes<B: Books>(
    rt: &(impl Abort + AllocGlobal),
    books: &mut B,
    file: &str,
    want: Option<&[u8]>,
) {
    let found = books.bytes_of(rt.alloc(), &file_name(rt, file));
    let body = found.expect(rt, file);
    assert!(rt; body.as_ref().map(|body| body.bytes()) == want, "{file}");
}

/// The look for the bytes of the file fails.
fn assert_lost<B: Books>(rt: &(impl Abort + AllocGlobal), books: &mut B, file: &str) {
    let found = books.bytes_of(rt.alloc(), &file_name(rt, file));
    assert!(rt; matches!(&found, Err(Fault::Store)), "{file}");
}

/// What the books have stored for the file is this text.
fn assert_stored<B: Places>(
    rt: &(impl Abort + AllocGlobal),
    books: &mut B,
    file: &str,
    want: &[u8],
) {
    let found = books.kept_of(rt.alloc(), &file_name(rt, file));
    let kept = found.expect(rt, file);
    assert!(rt;
        kept.as_ref().map(|kept| kept.stored.as_slice()) == Some(want),
        "{file}"
    );
}

/// Bytes lie one after the other, and a place has its offset and its size in eight bytes each.
fn assert_layout<B: Ends + Drop>(rt: &(impl Abort + AllocGlobal), books: VolumeBooks<B, File>) {
    let mut books = books;
    put(rt, &mut books, FIRST, b"abc");
    put(rt, &mut books, SECOND, b"");
    put(rt, &mut books, THIRD, b"de");
    assert_bytes(rt, &mut books, FIRST, Some(b"abc"));
    assert_bytes(rt, &mut books, SECOND, Some(b""));
    assert_bytes(rt, &mut books, THIRD, Some(b"de"));
    let (mut below, disk) = books.into_parts();
    assert_stored(rt, &mut below, FIRST, b"\0\0\0\0\0\0\0\0\0\0\0\0\0\0\0\x03");
    assert_stored(
        rt,
        &mut below,
        SECOND,
        b"\0\0\0\0\0\0\0\x03\0\0\0\0\0\0\0\0",
    );
    assert_stored(
        rt,
        &mut below,
        THIRD,
        b"\0\0\0\0\0\0\0\x03\0\0\0\0\0\0\0\x02",
    );
    assert_eq!(rt; disk.inner().bytes(), b"abcde".as_slice());
}

#[test]
fn bytes_lie_one_after_the_other(rt: HostRuntime) {
    assert_layout(&rt, new_volume_books(&rt));
}

/// The place of a deleted file is not used again.
fn assert_deleted<B: Ends + Drop>(rt: &(impl Abort + AllocGlobal), books: VolumeBooks<B, File>) {
    let mut books = books;
    put(rt, &mut books, FIRST, b"abc");
    let change = delete(rt, FIRST, b"abc");
    books.write(rt.alloc(), change).expect(rt, FIRST);
    put(rt, &mut books, SECOND, b"de");
    assert_bytes(rt, &mut books, FIRST, None);
    assert_bytes(rt, &mut books, SECOND, Some(b"de"));
    let (below, disk) = books.into_parts();
    drop(below);
    assert_eq!(rt; disk.inner().bytes(), b"abcde".as_slice());
}

#[test]
fn a_place_is_not_used_again(rt: HostRuntime) {
    assert_deleted(&rt, new_volume_books(&rt));
}

/// Books over a volume go on behind its end.
fn assert_goes_on<B: Ends + Drop>(rt: &(impl Abort + AllocGlobal), books: VolumeBooks<B, File>) {
    let mut books = books;
    put(rt, &mut books, FIRST, b"abc");
    let (below, disk) = books.into_parts();
    let mut books = adopted(rt, below, disk);
    put(rt, &mut books, SECOND, b"de");
    assert_bytes(rt, &mut books, FIRST, Some(b"abc"));
    assert_bytes(rt, &mut books, SECOND, Some(b"de"));
    drop(books);
}

#[test]
fn a_volume_that_is_taken_again_goes_on(rt: HostRuntime) {
    assert_goes_on(&rt, new_volume_books(&rt));
}
