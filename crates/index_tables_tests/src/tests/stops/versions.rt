//! A stop at each call of the database file while a version is read: that of an index, and that of tables that others
//! made.
use super::super::opening::SECOND_VERSION;
use super::super::{
    CHARGED, FILE, FROB, STANDING, VERSION, adopt, adopted, assert_number, refused, run,
};
use super::files::{File, Which, new_files};
use super::openings::told_of;
use super::{Told, Trial, assert_store_fault, done, files_after, stop_each};
use index_rules::OpenFault;
use index_tables::Unopened;
use sqlite::{Alter, Connection, Files};
use std::alloc::AllocGlobal;
use std::process::Abort;

/// With one page in memory, a look at another reads the file.
const ONE_PAGE: usize = 1;

/// The version is not read at some stops of the database file.
fn assert_unread(rt: &(impl Abort + AllocGlobal), files: &Files<File>, trial: &impl Trial) {
    let faults = stop_each(rt, files, trial, Which::Database);
    assert!(rt; faults > 0);
}

/// An index is adopted.
#[derive(Clone, Copy)]
struct Adoption;

impl Trial for Adoption {
    fn cache_pages(&self) -> usize {
        ONE_PAGE
    }

    fn run<R: Abort + AllocGlobal, S: Alter + Drop>(
        &self,
        rt: &R,
        conn: Connection<S>,
    ) -> (Told, Connection<S>) {
        told_of(rt, adopt(rt, conn))
    }

    fn assert_whole<R: Abort + AllocGlobal, S: Alter + Drop>(
        &self,
        rt: &R,
        conn: Connection<S>,
        _told: Told,
    ) -> Connection<S> {
        let mut conn = conn;
        assert_number(rt, &mut conn, VERSION, 2);
        adopted(rt, conn, &[[STANDING, CHARGED]])
    }
}

#[test]
fn the_version_of_an_index_is_read_or_not(rt: HostRuntime) {
    assert_unread(&rt, &files_after(&rt, &[FROB, FILE]), &Adoption);
}

/// How far an opening came that was refused for this reason.
fn told_by(rt: &impl Abort, why: OpenFault) -> Told {
    if why == OpenFault::NotAnIndex {
        return Told::Done;
    }
    assert_store_fault(rt, why);
    Told::Fault
}

/// Tables that others made are refused.
#[derive(Clone, Copy)]
struct Refusal;

impl Trial for Refusal {
    fn cache_pages(&self) -> usize {
        ONE_PAGE
    }

    fn run<R: Abort + AllocGlobal, S: Alter + Drop>(
        &self,
        rt: &R,
        conn: Connection<S>,
    ) -> (Told, Connection<S>) {
        match adopt(rt, conn) {
            Ok(books) => {
                drop(books.into_connection());
                panic!(rt; "an index was opened")
            }
            Err(Unopened { why, conn }) => (told_by(rt, why), conn),
        }
    }

    fn assert_whole<R: Abort + AllocGlobal, S: Alter + Drop>(
        &self,
        rt: &R,
        conn: Connection<S>,
        _told: Told,
    ) -> Connection<S> {
        let mut conn = refused(rt, adopt(rt, conn), OpenFault::NotAnIndex);
        assert_number(rt, &mut conn, VERSION, 2);
        conn
    }
}

/// A database with a table `meta` as an index has it, and another table.
fn with_other_tables<S: Alter>(rt: &impl Abort, conn: Connection<S>) -> Connection<S> {
    let mut conn = conn;
    run(rt, &mut conn, SECOND_VERSION);
    run(rt, &mut conn, "CREATE TABLE note (id INTEGER PRIMARY KEY)");
    conn
}

/// Tables that others made.
#[derive(Clone, Copy)]
struct OtherTables;

impl Trial for OtherTables {
    fn run<R: Abort + AllocGlobal, S: Alter + Drop>(
        &self,
        rt: &R,
        conn: Connection<S>,
    ) -> (Told, Connection<S>) {
        (Told::Done, with_other_tables(rt, conn))
    }
}

#[test]
fn the_version_of_other_tables_is_read_or_not(rt: HostRuntime) {
    let files = done(&rt, new_files(&rt), &OtherTables);
    assert_unread(&rt, &files, &Refusal);
}
