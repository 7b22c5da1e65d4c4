//! Indexes of version 3, which have places in a volume for the bytes of files.
use super::{FILE, FROB, VERSION, adopt, assert_number, new_database, new_index, refused, run};
use index_digest::Digest256;
use index_names::FileName;
use index_rules::{Fault, OpenFault};
use index_tables::Unopened;
use index_tables::books::SqlBooks;
use index_tables::version::Version3;
use index_volume_books::{Ends, Places};
use sqlite::{Alter, Connection, MemStore};
use std::alloc::AllocGlobal;
use std::process::Abort;

/// A second file of `frob`, of ann.
const SECOND_FILE: &[[&str; 2]] = &[[
    r#"{"at":12,"token":"abc","do":"upload","file":"frob-2.0.tar.gz","sha256":"ca978112ca1bbdcafac231b39a23dc4da786eff8147c4e72b9807785afee48bb","hex":"61","requires_python":""}"#,
    r#"{"answer":"accepted"}"#,
]];

/// Has the tables of version 2 as those of version 3.
const THIRD_VERSION: &str = "UPDATE meta SET version = 3";

/// The first file has the bytes from 100 to 103, and the second those from 0 to 104.
const SECOND_ENDS_LAST: &str =
    "UPDATE blobs SET body = x'00000000000000640000000000000003' WHERE file = 'frob-1.0.tar.gz'; UPDATE blobs SET body = x'00000000000000000000000000000068' WHERE file = 'frob-2.0.tar.gz'";

/// The first file has the bytes from 104 to 107, and the second those from 0 to 104.
const FIRST_ENDS_LAST: &str =
    "UPDATE blobs SET body = x'00000000000000680000000000000003' WHERE file = 'frob-1.0.tar.gz'; UPDATE blobs SET body = x'00000000000000000000000000000068' WHERE file = 'frob-2.0.tar.gz'";

/// A new index of version 3.
fn create_placed<S: Alter + Drop>(
    rt: &(impl Abort + AllocGlobal),
    conn: Connection<S>,
) -> Connection<S> {
    assert!(rt; conn.is_autocommit());
    let token = Digest256::of(b"office");
    match SqlBooks::<S, Version3>::create(rt.alloc(), conn, b"office", token) {
        Ok(books) => books.into_connection(),
        Err(Unopened { why, conn }) => {
            drop(conn);
            panic!(rt; "{why:?}")
        }
    }
}

/// The books of an index of version 3.
fn adopt_placed<S: Alter + Drop>(
    rt: &(impl Abort + AllocGlobal),
    conn: Connection<S>,
) -> SqlBooks<S, Version3> {
    assert!(rt; conn.is_autocommit());
    match SqlBooks::adopt_placed(rt.alloc(), conn) {
        Ok(books) => books,
        Err(Unopened { why, conn }) => {
            drop(conn);
            panic!(rt; "{why:?}")
        }
    }
}

/// A database is not opened as an index of version 3, for this reason. The connection to it comes back.
fn not_placed<S: Alter + Drop>(
    rt: &(impl Abort + AllocGlobal),
    conn: Connection<S>,
    want: OpenFault,
) -> Connection<S> {
    assert!(rt; conn.is_autocommit());
    match SqlBooks::adopt_placed(rt.alloc(), conn) {
        Ok(books) => {
            drop(books.into_connection());
            panic!(rt; "an index was opened")
        }
        Err(Unopened { why, conn }) => {
            assert_eq!(rt; why, want);
            conn
        }
    }
}

/// The books of an index of two files of version 3, after this change of their bytes.
fn placed_after(rt: &(impl Abort + AllocGlobal), sql: &str) -> SqlBooks<MemStore, Version3> {
    let mut conn = new_index(rt, new_database(rt), &[FROB, FILE, SECOND_FILE]);
    run(rt, &mut conn, THIRD_VERSION);
    run(rt, &mut conn, sql);
    adopt_placed(rt, conn)
}

#[test]
fn an_index_is_made_with_its_version(rt: HostRuntime) {
    let mut conn = create_placed(&rt, new_database(&rt));
    assert_number(&rt, &mut conn, VERSION, 3);
    let conn = refused(&rt, adopt(&rt, conn), OpenFault::OtherVersion);
    let mut books = adopt_placed(&rt, conn);
    let last = books.last_file(rt.alloc()).expect(&rt, "a look");
    assert!(rt; last.is_none());
    drop(books.into_connection());
}

#[test]
fn other_versions_are_not_placed(rt: HostRuntime) {
    let conn = new_index(&rt, new_database(&rt), &[FROB, FILE]);
    let mut conn = not_placed(&rt, conn, OpenFault::OtherVersion);
    assert_number(&rt, &mut conn, VERSION, 2);
    run(&rt, &mut conn, "UPDATE meta SET version = 4");
    let mut conn = not_placed(&rt, conn, OpenFault::OtherVersion);
    assert_number(&rt, &mut conn, VERSION, 4);
    drop(conn);
    drop(not_placed(&rt, new_database(&rt), OpenFault::NotAnIndex));
}

/// The file of an index whose place ends last.
fn assert_last(rt: &(impl Abort + AllocGlobal), sql: &str, want: &str) {
    let mut books = placed_after(rt, sql);
    let last = books.last_file(rt.alloc()).expect(rt, sql);
    let file = last.expect(rt, "a file");
    assert_eq!(rt; file.text(), want);
    drop(books.into_connection());
}

#[test]
fn the_place_that_ends_last_is_found(rt: HostRuntime) {
    assert_last(&rt, SECOND_ENDS_LAST, "frob-2.0.tar.gz");
    assert_last(&rt, FIRST_ENDS_LAST, "frob-1.0.tar.gz");
}

/// What is stored for the second file is no place.
fn assert_no_place(rt: &(impl Abort + AllocGlobal), sql: &str) {
    let mut books = placed_after(rt, SECOND_ENDS_LAST);
    let mut conn = books.into_connection();
    run(rt, &mut conn, sql);
    books = adopt_placed(rt, conn);
    let last = books.last_file(rt.alloc());
    assert_eq!(rt; last.err(), Some(Fault::Store), "{sql}");
    drop(books.into_connection());
}

#[test]
fn what_is_no_place_is_a_fault(rt: HostRuntime) {
    let short =
        "UPDATE blobs SET body = x'000000000000000000000000000068' WHERE file = 'frob-2.0.tar.gz'";
    assert_no_place(&rt, short);
    let past =
        "UPDATE blobs SET body = x'ffffffffffffffff0000000000000001' WHERE file = 'frob-2.0.tar.gz'";
    assert_no_place(&rt, past);
}

#[test]
fn a_place_is_kept_with_the_digest_of_its_file(rt: HostRuntime) {
    let mut books = placed_after(&rt, SECOND_ENDS_LAST);
    let file = FileName::read(rt.alloc(), b"frob-2.0.tar.gz").expect(&rt, "a file name");
    let kept = books.kept_of(rt.alloc(), &file).expect(&rt, "a look");
    let kept = kept.expect(&rt, "what is stored");
    assert_eq!(rt; kept.digest, Digest256::of(b"a"));
    let place = [0, 0, 0, 0, 0, 0, 0, 0, 0, 0, 0, 0, 0, 0, 0, 104];
    assert_eq!(rt; kept.stored.as_slice(), place.as_slice());
    let other = FileName::read(rt.alloc(), b"frob-3.0.tar.gz").expect(&rt, "a file name");
    let none = books.kept_of(rt.alloc(), &other).expect(&rt, "a look");
    assert!(rt; none.is_none());
    drop(books.into_connection());
}
