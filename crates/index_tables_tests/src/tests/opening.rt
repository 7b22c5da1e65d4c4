//! Indexes are made and adopted, and databases refused.
use super::{
    CHARGED, FILE, FROB, STANDING, VERSION, adopt, assert_adopted, assert_number, create,
    new_database, new_index, refused, run,
};
use index_digest::Digest256;
use index_rules::OpenFault;
use index_tables::SqlBooks;
use sqlite::{Alter, Connection};
use std::alloc::AllocGlobal;
use std::process::Abort;

/// The number of tables and indexes of a database.
const COUNT: &str = "SELECT count(*) FROM sqlite_schema";

/// A table `meta` of an index of this version.
pub(super) const SECOND_VERSION: &str =
    "CREATE TABLE meta (id INTEGER PRIMARY KEY, kind TEXT NOT NULL, version INTEGER NOT NULL) STRICT; INSERT INTO meta VALUES (1, 'python-index', 2)";

/// A database in which a query finds a number is not adopted, for this reason. The query then finds the same.
fn assert_not_adopted<S: Alter + Drop>(
    rt: &(impl Abort + AllocGlobal),
    conn: Connection<S>,
    sql: &str,
    why: OpenFault,
    query: &str,
    number: i64,
) {
    let mut conn = conn;
    run(rt, &mut conn, sql);
    assert_number(rt, &mut conn, query, number);
    let mut conn = refused(rt, adopt(rt, conn), why);
    assert_number(rt, &mut conn, query, number);
    drop(conn);
}

/// An index with this change to its row of `meta` is not adopted, for this reason.
fn assert_changed<S: Alter + Drop>(
    rt: &(impl Abort + AllocGlobal),
    conn: Connection<S>,
    sql: &str,
    why: OpenFault,
    version: i64,
) {
    let mut conn = new_index(rt, conn, &[FROB]);
    run(rt, &mut conn, sql);
    let mut conn = refused(rt, adopt(rt, conn), why);
    assert_number(rt, &mut conn, VERSION, version);
    drop(conn);
}

fn adopt_new<S: Alter + Drop>(rt: &(impl Abort + AllocGlobal), conn: Connection<S>) {
    let conn = new_index(rt, conn, &[FROB, FILE]);
    assert_adopted(rt, conn, &[[STANDING, CHARGED]]);
}

#[test]
fn a_new_index_is_adopted(rt: HostRuntime) {
    adopt_new(&rt, new_database(&rt));
}

fn make_twice<S: Alter + Drop>(rt: &(impl Abort + AllocGlobal), conn: Connection<S>) {
    let conn = new_index(rt, conn, &[FROB, FILE]);
    let conn = refused(rt, create(rt, conn), OpenFault::NotEmpty);
    assert_adopted(rt, conn, &[[STANDING, CHARGED]]);
}

#[test]
fn an_index_is_made_once(rt: HostRuntime) {
    make_twice(&rt, new_database(&rt));
}

/// No index is made with this first user and this text for a token.
fn assert_bad_first_user<S: Alter + Drop>(
    rt: &(impl Abort + AllocGlobal),
    conn: Connection<S>,
    user: &str,
    token: &str,
) {
    assert!(rt; conn.is_autocommit());
    let token = Digest256::of(token.as_bytes());
    let books = SqlBooks::create(rt.alloc(), conn, user.as_bytes(), token);
    let mut conn = refused(rt, books, OpenFault::BadFirstUser);
    assert_number(rt, &mut conn, COUNT, 0);
    drop(conn);
}

#[test]
fn a_bad_first_user_is_refused(rt: HostRuntime) {
    assert_bad_first_user(&rt, new_database(&rt), "Office", "office");
    assert_bad_first_user(&rt, new_database(&rt), "", "office");
    assert_bad_first_user(&rt, new_database(&rt), "office", "");
}

#[test]
fn other_tables_are_no_index(rt: HostRuntime) {
    assert_not_adopted(&rt, new_database(&rt), "", OpenFault::NotAnIndex, COUNT, 0);
    let other = "CREATE TABLE note (id INTEGER PRIMARY KEY) STRICT";
    assert_not_adopted(
        &rt,
        new_database(&rt),
        other,
        OpenFault::NotAnIndex,
        COUNT,
        1,
    );
    assert_not_adopted(
        &rt,
        new_database(&rt),
        SECOND_VERSION,
        OpenFault::NotAnIndex,
        COUNT,
        1,
    );
}

/// Tables `meta` that other programs keep.
const OTHER_META: &[&str] = &[
    "CREATE TABLE meta (key TEXT PRIMARY KEY, value TEXT); INSERT INTO meta VALUES ('version', '1')",
    "CREATE TABLE meta (id INTEGER PRIMARY KEY, version INTEGER)",
];

#[test]
fn the_meta_of_another_program_is_no_index(rt: HostRuntime) {
    for sql in OTHER_META {
        let query = "SELECT count(*) FROM sqlite_schema WHERE type = 'table'";
        assert_not_adopted(&rt, new_database(&rt), sql, OpenFault::NotAnIndex, query, 1);
    }
}

#[test]
fn another_row_of_meta_is_refused(rt: HostRuntime) {
    let kind = "UPDATE meta SET kind = 'index'";
    assert_changed(&rt, new_database(&rt), kind, OpenFault::NotAnIndex, 2);
    let third = "UPDATE meta SET version = 3";
    assert_changed(&rt, new_database(&rt), third, OpenFault::OtherVersion, 3);
    let ninth = "UPDATE meta SET version = 9";
    assert_changed(&rt, new_database(&rt), ninth, OpenFault::OtherVersion, 9);
    let below = "UPDATE meta SET version = -1";
    assert_changed(&rt, new_database(&rt), below, OpenFault::OtherVersion, -1);
}

/// Tables with the names of an index's, one of which differs from it.
const OTHER_SHAPE: &str =
    "CREATE TABLE users (user TEXT); CREATE TABLE names (name TEXT); CREATE TABLE owners (name TEXT); CREATE TABLE files (file TEXT); CREATE TABLE blobs (file TEXT); CREATE TABLE yanks (name TEXT); CREATE TABLE cases (name TEXT); CREATE TABLE bans (file TEXT); CREATE TABLE meta (id INTEGER PRIMARY KEY, kind TEXT NOT NULL, version INTEGER NOT NULL) STRICT; INSERT INTO meta VALUES (1, 'python-index', 2)";

#[test]
fn tables_of_another_shape_are_refused(rt: HostRuntime) {
    assert_not_adopted(
        &rt,
        new_database(&rt),
        OTHER_SHAPE,
        OpenFault::Store,
        COUNT,
        9,
    );
}

/// A query of the version may take no step, and a database is not adopted, because the store failed. It is as it was.
fn assert_unread<S: Alter + Drop>(rt: &(impl Abort + AllocGlobal), conn: Connection<S>) {
    let mut conn = conn;
    conn.set_step_limit(Some(0));
    let mut conn = refused(rt, adopt(rt, conn), OpenFault::Store);
    conn.set_step_limit(None);
    assert_number(rt, &mut conn, VERSION, 2);
    drop(conn);
}

/// The version of an index, and of tables that others made.
fn leave_unread<S: Alter + Drop>(
    rt: &(impl Abort + AllocGlobal),
    conn: Connection<S>,
    others: Connection<S>,
) {
    assert_unread(rt, new_index(rt, conn, &[FROB]));
    let mut others = others;
    run(rt, &mut others, SECOND_VERSION);
    assert_unread(rt, others);
}

#[test]
fn a_version_that_is_not_read_is_a_fault_of_the_store(rt: HostRuntime) {
    leave_unread(&rt, new_database(&rt), new_database(&rt));
}

fn make_beside<S: Alter + Drop>(rt: &(impl Abort + AllocGlobal), conn: Connection<S>) {
    let mut conn = conn;
    run(rt, &mut conn, "CREATE TABLE names (name TEXT)");
    let conn = refused(rt, create(rt, conn), OpenFault::NotEmpty);
    let mut conn = refused(rt, adopt(rt, conn), OpenFault::NotAnIndex);
    assert_number(rt, &mut conn, COUNT, 1);
    drop(conn);
}

#[test]
fn an_index_is_made_in_an_empty_database_alone(rt: HostRuntime) {
    make_beside(&rt, new_database(&rt));
}

/// No index is made beside other objects, none of which is a table of an index.
fn assert_among_others<S: Alter + Drop>(
    rt: &(impl Abort + AllocGlobal),
    conn: Connection<S>,
    sql: &str,
) {
    let mut conn = conn;
    run(rt, &mut conn, sql);
    let conn = refused(rt, create(rt, conn), OpenFault::Store);
    let mut conn = refused(rt, adopt(rt, conn), OpenFault::NotAnIndex);
    assert_number(rt, &mut conn, COUNT, 1);
    drop(conn);
}

#[test]
fn no_index_is_made_among_other_tables(rt: HostRuntime) {
    let table = "CREATE TABLE note (id INTEGER PRIMARY KEY) STRICT";
    assert_among_others(&rt, new_database(&rt), table);
    let view = "CREATE VIEW note AS SELECT 1";
    assert_among_others(&rt, new_database(&rt), view);
}
