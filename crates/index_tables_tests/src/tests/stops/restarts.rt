//! An index whose files are closed and opened again.
use super::super::{
    ACCEPTED, ALREADY, CHARGED, CLAIM, DELETE, FILE, FROB, STANDING, adopt, adopted, create,
    new_index, refused, run,
};
use super::files::new_files;
use super::{Told, Trial, assert_reopened, files_after};
use index_digest::Digest256;
use index_rules::OpenFault;
use index_tables::SqlBooks;
use sqlite::{Alter, Connection};
use std::alloc::AllocGlobal;
use std::process::Abort;

/// What was written is there, and the index goes on.
const GOES_ON: &[[&str; 2]] = &[[STANDING, CHARGED], [CLAIM, ALREADY], [DELETE, ACCEPTED]];

/// An index is made, and found again.
#[derive(Clone, Copy)]
struct Made;

impl Trial for Made {
    fn run<R: Abort + AllocGlobal, S: Alter + Drop>(
        &self,
        rt: &R,
        conn: Connection<S>,
    ) -> (Told, Connection<S>) {
        (Told::Done, new_index(rt, conn, &[FROB, FILE]))
    }

    fn assert_whole<R: Abort + AllocGlobal, S: Alter + Drop>(
        &self,
        rt: &R,
        conn: Connection<S>,
        _told: Told,
    ) -> Connection<S> {
        adopted(rt, conn, GOES_ON)
    }
}

#[test]
fn a_closed_index_is_found_again(rt: HostRuntime) {
    assert_reopened(&rt, new_files(&rt), &Made);
}

/// No second index is made.
#[derive(Clone, Copy)]
struct MadeAgain;

impl Trial for MadeAgain {
    fn run<R: Abort + AllocGlobal, S: Alter + Drop>(
        &self,
        rt: &R,
        conn: Connection<S>,
    ) -> (Told, Connection<S>) {
        (
            Told::Done,
            refused(rt, create(rt, conn), OpenFault::NotEmpty),
        )
    }

    fn assert_whole<R: Abort + AllocGlobal, S: Alter + Drop>(
        &self,
        rt: &R,
        conn: Connection<S>,
        _told: Told,
    ) -> Connection<S> {
        adopted(rt, conn, &[[STANDING, CHARGED]])
    }
}

#[test]
fn files_hold_one_index(rt: HostRuntime) {
    assert_reopened(&rt, files_after(&rt, &[FROB, FILE]), &MadeAgain);
}

/// No index is found, and none is made for a user whose id is not valid.
fn assert_no_office<S: Alter + Drop>(
    rt: &(impl Abort + AllocGlobal),
    conn: Connection<S>,
) -> Connection<S> {
    let conn = refused(rt, adopt(rt, conn), OpenFault::NotAnIndex);
    assert!(rt; conn.is_autocommit());
    let books = SqlBooks::create(rt.alloc(), conn, b"Office", Digest256::of(b"office"));
    refused(rt, books, OpenFault::BadFirstUser)
}

/// Files without contents hold no index.
#[derive(Clone, Copy)]
struct Nothing;

impl Trial for Nothing {
    fn run<R: Abort + AllocGlobal, S: Alter + Drop>(
        &self,
        rt: &R,
        conn: Connection<S>,
    ) -> (Told, Connection<S>) {
        (Told::Done, assert_no_office(rt, conn))
    }

    fn assert_whole<R: Abort + AllocGlobal, S: Alter + Drop>(
        &self,
        rt: &R,
        conn: Connection<S>,
        _told: Told,
    ) -> Connection<S> {
        assert_no_office(rt, conn)
    }
}

#[test]
fn files_with_nothing_in_them_hold_no_index(rt: HostRuntime) {
    assert_reopened(&rt, new_files(&rt), &Nothing);
}

/// The index has version 9.
fn with_version_9<S: Alter + Drop>(rt: &impl Abort, conn: Connection<S>) -> Connection<S> {
    let mut conn = conn;
    run(rt, &mut conn, "UPDATE meta SET version = 9");
    conn
}

/// An index of another version is refused.
#[derive(Clone, Copy)]
struct OtherVersion;

impl Trial for OtherVersion {
    fn run<R: Abort + AllocGlobal, S: Alter + Drop>(
        &self,
        rt: &R,
        conn: Connection<S>,
    ) -> (Told, Connection<S>) {
        (Told::Done, with_version_9(rt, conn))
    }

    fn assert_whole<R: Abort + AllocGlobal, S: Alter + Drop>(
        &self,
        rt: &R,
        conn: Connection<S>,
        _told: Told,
    ) -> Connection<S> {
        refused(rt, adopt(rt, conn), OpenFault::OtherVersion)
    }
}

#[test]
fn another_version_is_found_again(rt: HostRuntime) {
    assert_reopened(&rt, files_after(&rt, &[FROB, FILE]), &OtherVersion);
}
