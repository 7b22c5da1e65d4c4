//! A stop at each call of an opening that writes: a new index is made, and one of version 1 brought to version 2.
use super::super::migrations::with_first_version;
use super::super::{
    ACCEPTED, ADD_ANN, FILE_NAME_TAKEN, OTHER_UPLOAD, STANDING, UNCHARGED, VERSION, adopt,
    assert_answer, assert_number, assert_wrong_charges, connection_of, create, desk_over, number,
};
use super::files::new_files;
use super::{Told, Trial, assert_stops, assert_store_fault, done};
use index_rules::OpenFault;
use index_tables::{SqlBooks, Unopened};
use sqlite::{Alter, Connection};
use std::alloc::AllocGlobal;
use std::process::Abort;

/// How far an opening came, and its connection.
pub(super) fn told_of<S: Alter + Drop>(
    rt: &impl Abort,
    books: Result<SqlBooks<S>, Unopened<S>>,
) -> (Told, Connection<S>) {
    match books {
        Ok(books) => (Told::Done, books.into_connection()),
        Err(Unopened { why, conn }) => {
            assert_store_fault(rt, why);
            (Told::Fault, conn)
        }
    }
}

/// A new index.
#[derive(Clone, Copy)]
struct Creation;

impl Trial for Creation {
    fn run<R: Abort + AllocGlobal, S: Alter + Drop>(
        &self,
        rt: &R,
        conn: Connection<S>,
    ) -> (Told, Connection<S>) {
        told_of(rt, create(rt, conn))
    }

    fn assert_whole<R: Abort + AllocGlobal, S: Alter + Drop>(
        &self,
        rt: &R,
        conn: Connection<S>,
        told: Told,
    ) -> Connection<S> {
        let books = match adopt(rt, conn) {
            Ok(books) => Ok(books),
            Err(Unopened { why, conn }) => {
                assert_none(rt, why, told);
                create(rt, conn)
            }
        };
        let mut desk = desk_over(rt, books);
        assert_wrong_charges(rt, &mut desk, 0);
        assert_answer(rt, &mut desk, ADD_ANN, ACCEPTED);
        connection_of(desk)
    }
}

/// There is no index, and none was reported.
fn assert_none(rt: &impl Abort, why: OpenFault, told: Told) {
    assert_eq!(rt; why, OpenFault::NotAnIndex);
    assert!(rt; told != Told::Done);
}

#[test]
fn an_index_is_created_or_not(rt: HostRuntime) {
    assert_stops(&rt, &new_files(&rt), &Creation);
}

const BANS: &str = "SELECT count(*) FROM sqlite_schema WHERE name = 'bans'";

/// Tables of version 1, which hold a deleted file, are adopted.
#[derive(Clone, Copy)]
struct Migration;

impl Trial for Migration {
    fn run<R: Abort + AllocGlobal, S: Alter + Drop>(
        &self,
        rt: &R,
        conn: Connection<S>,
    ) -> (Told, Connection<S>) {
        told_of(rt, adopt(rt, conn))
    }

    fn assert_whole<R: Abort + AllocGlobal, S: Alter + Drop>(
        &self,
        rt: &R,
        conn: Connection<S>,
        told: Told,
    ) -> Connection<S> {
        let mut conn = conn;
        assert_version(rt, &mut conn, told);
        let mut desk = desk_over(rt, adopt(rt, conn));
        assert_wrong_charges(rt, &mut desk, 0);
        assert_answer(rt, &mut desk, STANDING, UNCHARGED);
        assert_answer(rt, &mut desk, OTHER_UPLOAD, FILE_NAME_TAKEN);
        connection_of(desk)
    }
}

/// The tables are of version 1 without a table of bans, or of version 2 with one; of version 2 if that was reported.
fn assert_version<S: Alter>(rt: &impl Abort, conn: &mut Connection<S>, told: Told) {
    let bans = number(rt, conn, BANS);
    assert!(rt; told != Told::Done || bans == 1);
    let version = if bans == 1 { 2 } else { 1 };
    assert_number(rt, conn, VERSION, version);
}

/// Tables of version 1.
#[derive(Clone, Copy)]
struct FirstVersion;

impl Trial for FirstVersion {
    fn run<R: Abort + AllocGlobal, S: Alter + Drop>(
        &self,
        rt: &R,
        conn: Connection<S>,
    ) -> (Told, Connection<S>) {
        (Told::Done, with_first_version(rt, conn))
    }
}

#[test]
fn the_first_version_is_migrated_or_not(rt: HostRuntime) {
    let files = done(&rt, new_files(&rt), &FirstVersion);
    assert_stops(&rt, &files, &Migration);
}
