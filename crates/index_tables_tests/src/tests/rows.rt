//! The tables as SQL finds them, and tables that SQL damaged.
use super::{
    ACCEPTED, CHARGED, DELETE, FILE, FROB, STANDING, adopt, assert_answer, assert_number,
    assert_wrong_charges, body, connection_of, desk_over, new_database, new_index, run,
};
use index_desk::Desk;
use index_rules::{Books, Fault};
use sqlite::{Alter, Connection};
use std::alloc::AllocGlobal;
use std::process::Abort;

const NO_FILES_LEFT: &str =
    "SELECT count(*) FROM names WHERE name = 'frob' AND state = 1 AND shown = 'frob' AND quota = 1073741824 AND charged = 0 AND live = 0 AND last_upload = 11";

const DELETED_ROWS: &[(&str, i64)] = &[
    ("SELECT count(*) FROM names", 1),
    (NO_FILES_LEFT, 1),
    (
        "SELECT count(*) FROM files WHERE file = 'frob-1.0.tar.gz' AND live = 0",
        1,
    ),
    ("SELECT count(*) FROM blobs", 0),
];

/// After these exchanges each query finds its number.
fn assert_rows<S: Alter + Drop>(
    rt: &(impl Abort + AllocGlobal),
    conn: Connection<S>,
    parts: &[&[[&str; 2]]],
    queries: &[(&str, i64)],
) {
    let mut conn = new_index(rt, conn, parts);
    for (query, count) in queries {
        assert_number(rt, &mut conn, query, *count);
    }
    drop(conn);
}

#[test]
fn a_deleted_file_keeps_its_row(rt: HostRuntime) {
    let deleted = &[FROB, FILE, &[[DELETE, ACCEPTED]]];
    assert_rows(&rt, new_database(&rt), deleted, DELETED_ROWS);
}

/// ann uploads a second file and yanks the release of the first, and the office prohibits the name.
const PROHIBITED: &[[&str; 2]] = &[
    [
        r#"{"at":12,"token":"abc","do":"upload","file":"frob-1.1.tar.gz","sha256":"ca978112ca1bbdcafac231b39a23dc4da786eff8147c4e72b9807785afee48bb","hex":"61","requires_python":""}"#,
        ACCEPTED,
    ],
    [
        r#"{"at":13,"token":"abc","do":"yank","name":"frob","release":"1.0","reason":""}"#,
        ACCEPTED,
    ],
    [
        r#"{"at":14,"token":"office","do":"prohibit","name":"frob"}"#,
        ACCEPTED,
    ],
];

const PROHIBITED_ROW: &str =
    "SELECT count(*) FROM names WHERE name = 'frob' AND state = 2 AND shown = '' AND quota = 0 AND charged = 0 AND live = 0 AND last_upload IS NULL";

const PROHIBITED_ROWS: &[(&str, i64)] = &[
    (PROHIBITED_ROW, 1),
    ("SELECT count(*) FROM owners", 0),
    ("SELECT count(*) FROM yanks", 0),
    ("SELECT count(*) FROM cases", 0),
    ("SELECT count(*) FROM blobs", 0),
    (
        "SELECT count(*) FROM files WHERE name = 'frob' AND live = 0",
        2,
    ),
];

/// The one row that says what the tables are.
const META_ROWS: &[(&str, i64)] = &[
    ("SELECT count(*) FROM meta", 1),
    (
        "SELECT count(*) FROM meta WHERE id = 1 AND kind = 'python-index' AND version = 2",
        1,
    ),
];

#[test]
fn meta_has_one_row(rt: HostRuntime) {
    assert_rows(&rt, new_database(&rt), &[], META_ROWS);
    let prohibited = &[FROB, FILE, PROHIBITED];
    assert_rows(&rt, new_database(&rt), prohibited, META_ROWS);
}

#[test]
fn a_prohibited_name_keeps_its_files_alone(rt: HostRuntime) {
    let prohibited = &[FROB, FILE, PROHIBITED];
    assert_rows(&rt, new_database(&rt), prohibited, PROHIBITED_ROWS);
}

/// After a statement, this many names have a wrong charge.
fn assert_check<S: Alter + Drop>(
    rt: &(impl Abort + AllocGlobal),
    conn: Connection<S>,
    sql: &str,
    count: u64,
) {
    let mut conn = new_index(rt, conn, &[FROB, FILE]);
    run(rt, &mut conn, sql);
    let mut desk = desk_over(rt, adopt(rt, conn));
    assert_wrong_charges(rt, &mut desk, count);
    drop(connection_of(desk));
}

#[test]
fn a_wrong_charge_is_found(rt: HostRuntime) {
    assert_check(&rt, new_database(&rt), "", 0);
    let raised = "UPDATE names SET charged = 4";
    assert_check(&rt, new_database(&rt), raised, 1);
}

/// The bytes of the file are not returned, because the store failed.
fn assert_no_bytes<B: Books>(rt: &(impl Abort + AllocGlobal), desk: &mut Desk<B>) {
    let found = body(rt, desk);
    assert!(rt; matches!(&found, Err(Fault::Store)));
}

fn spoil_bytes<S: Alter + Drop>(rt: &(impl Abort + AllocGlobal), conn: Connection<S>) {
    let mut conn = new_index(rt, conn, &[FROB, FILE]);
    run(rt, &mut conn, "UPDATE blobs SET body = x'61'");
    let mut desk = desk_over(rt, adopt(rt, conn));
    assert_no_bytes(rt, &mut desk);
    assert_answer(rt, &mut desk, STANDING, CHARGED);
    drop(connection_of(desk));
}

#[test]
fn bytes_without_their_digest_are_not_told(rt: HostRuntime) {
    spoil_bytes(&rt, new_database(&rt));
}
