//! Tables that SQL made are adopted, those of version 1 and those of version 2.
use super::{
    ACCEPTED, CHARGED, FILE_NAME_TAKEN, OTHER_UPLOAD, STANDING, UNCHARGED, UPLOAD, VERSION, adopt,
    assert_adopted, assert_number, connection_of, desk_over, new_database, refused, run,
};
use index_rules::OpenFault;
use sqlite::{Alter, Connection};
use std::alloc::AllocGlobal;
use std::process::Abort;

/// The tables of version 1.
pub(super) const FIRST_VERSION: &str = "
CREATE TABLE meta (id INTEGER PRIMARY KEY, kind TEXT NOT NULL, version INTEGER NOT NULL) STRICT;
CREATE TABLE users (user TEXT NOT NULL PRIMARY KEY, office INTEGER NOT NULL, token BLOB NOT NULL UNIQUE) STRICT;
CREATE TABLE names (name TEXT NOT NULL PRIMARY KEY, state INTEGER NOT NULL, shown TEXT NOT NULL, quota INTEGER NOT NULL, charged INTEGER NOT NULL, live INTEGER NOT NULL, last_upload INTEGER, CHECK (charged BETWEEN 0 AND quota)) STRICT;
CREATE TABLE owners (name TEXT NOT NULL REFERENCES names (name) ON DELETE CASCADE, user TEXT NOT NULL REFERENCES users (user), PRIMARY KEY (name, user)) STRICT;
CREATE TABLE files (file TEXT NOT NULL PRIMARY KEY, name TEXT NOT NULL, rel TEXT NOT NULL, digest BLOB NOT NULL, size INTEGER NOT NULL, requires TEXT NOT NULL, live INTEGER NOT NULL, UNIQUE (name, file)) STRICT;
CREATE TABLE blobs (file TEXT NOT NULL PRIMARY KEY REFERENCES files (file), body BLOB NOT NULL) STRICT;
CREATE TABLE yanks (name TEXT NOT NULL REFERENCES names (name) ON DELETE CASCADE, rel TEXT NOT NULL, reason TEXT NOT NULL, PRIMARY KEY (name, rel)) STRICT;
CREATE TABLE cases (name TEXT NOT NULL PRIMARY KEY REFERENCES names (name) ON DELETE CASCADE, kind INTEGER NOT NULL, candidate TEXT NOT NULL REFERENCES users (user), contact TEXT NOT NULL, work TEXT NOT NULL, why TEXT NOT NULL, opened INTEGER NOT NULL, attempts INTEGER NOT NULL, sent INTEGER NOT NULL, profile INTEGER NOT NULL, author INTEGER NOT NULL, pages INTEGER NOT NULL, first_sent INTEGER) STRICT";

/// `office` is of the office and ann owns `frob`, whose one file, the bytes `abc`, is deleted.
pub(super) const DELETED_FILE: &str = "
INSERT INTO meta VALUES (1, 'python-index', 1);
INSERT INTO users VALUES ('office', 1, x'5cc3f82838ba7260203e4590ce03d00e1663d41f6a5167144f5c95d6be2166a0');
INSERT INTO users VALUES ('ann', 0, x'ba7816bf8f01cfea414140de5dae2223b00361a396177a9cb410ff61f20015ad');
INSERT INTO names VALUES ('frob', 1, 'frob', 1073741824, 0, 0, 11);
INSERT INTO owners VALUES ('frob', 'ann');
INSERT INTO files VALUES ('frob-1.0.tar.gz', 'frob', '1.0', x'ba7816bf8f01cfea414140de5dae2223b00361a396177a9cb410ff61f20015ad', 3, '', 0)";

/// A database with tables of version 1 that hold a deleted file.
pub(super) fn with_first_version<S: Alter>(rt: &impl Abort, conn: Connection<S>) -> Connection<S> {
    let mut conn = conn;
    run(rt, &mut conn, FIRST_VERSION);
    run(rt, &mut conn, DELETED_FILE);
    conn
}

/// The deleted file is not uploaded with other bytes, and is uploaded again with its own.
const UPLOADED_AGAIN: &[[&str; 2]] = &[
    [STANDING, UNCHARGED],
    [OTHER_UPLOAD, FILE_NAME_TAKEN],
    [UPLOAD, ACCEPTED],
    [STANDING, CHARGED],
];

fn upload_again<S: Alter + Drop>(rt: &(impl Abort + AllocGlobal), conn: Connection<S>) {
    assert_adopted(rt, with_first_version(rt, conn), UPLOADED_AGAIN);
}

#[test]
fn a_deleted_file_stays_bound_over_a_migration(rt: HostRuntime) {
    upload_again(&rt, new_database(&rt));
}

fn migrate<S: Alter + Drop>(rt: &(impl Abort + AllocGlobal), conn: Connection<S>) {
    let conn = with_first_version(rt, conn);
    let mut conn = connection_of(desk_over(rt, adopt(rt, conn)));
    assert_number(rt, &mut conn, VERSION, 2);
    assert_number(rt, &mut conn, "SELECT count(*) FROM meta", 1);
    assert_number(rt, &mut conn, "SELECT count(*) FROM bans", 0);
    assert_adopted(rt, conn, &[[STANDING, UNCHARGED]]);
}

#[test]
fn a_migration_makes_the_second_version(rt: HostRuntime) {
    migrate(&rt, new_database(&rt));
}

/// Tables of version 1 with this change are refused, and keep their version.
fn assert_refused<S: Alter + Drop>(
    rt: &(impl Abort + AllocGlobal),
    conn: Connection<S>,
    sql: &str,
    want: OpenFault,
    version: i64,
) {
    let mut conn = with_first_version(rt, conn);
    run(rt, &mut conn, sql);
    let mut conn = refused(rt, adopt(rt, conn), want);
    assert_number(rt, &mut conn, VERSION, version);
    drop(conn);
}

#[test]
fn tables_that_are_not_there_are_missed(rt: HostRuntime) {
    let no_yanks = "DROP TABLE yanks";
    assert_refused(&rt, new_database(&rt), no_yanks, OpenFault::NotAnIndex, 1);
    let no_bans = "UPDATE meta SET version = 2";
    assert_refused(&rt, new_database(&rt), no_bans, OpenFault::NotAnIndex, 2);
    let third = "UPDATE meta SET version = 3";
    assert_refused(&rt, new_database(&rt), third, OpenFault::OtherVersion, 3);
}

/// The table that version 2 has beside those of version 1.
const BANS: &str = "
CREATE TABLE bans (file TEXT NOT NULL PRIMARY KEY REFERENCES files (file)) STRICT";

/// The tables are of version 2, and the file is banned.
const BANNED_FILE: &str = "
UPDATE meta SET version = 2;
INSERT INTO bans VALUES ('frob-1.0.tar.gz')";

/// A file that is banned is not uploaded again.
const FILE_BANNED: &str = r#"{"answer":"refused","code":25,"name":"FileBanned"}"#;

fn adopt_second_version<S: Alter + Drop>(rt: &(impl Abort + AllocGlobal), conn: Connection<S>) {
    let mut conn = with_first_version(rt, conn);
    run(rt, &mut conn, BANS);
    run(rt, &mut conn, BANNED_FILE);
    assert_adopted(rt, conn, &[[STANDING, UNCHARGED], [UPLOAD, FILE_BANNED]]);
}

#[test]
fn tables_of_the_second_version_are_adopted(rt: HostRuntime) {
    adopt_second_version(&rt, new_database(&rt));
}
