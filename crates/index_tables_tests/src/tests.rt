//! Indexes in databases, and requests to them.
use index_desk::Desk;
use index_digest::{Digest256, Sealed};
use index_json::{Line, answer_text, read_line, standing_text};
use index_names::{FileName, normal};
use index_rules::{Answer, Books, Bytes, Fault, OpenFault};
use index_tables::{SqlBooks, Unopened};
use sqlite::{Alter, Connection, MemStore, Row};
use std::alloc::AllocGlobal;
use std::process::Abort;

mod looks;
mod migrations;
mod opening;
mod placed;
mod rows;
mod runs;
mod stops;

const ACCEPTED: &str = r#"{"answer":"accepted"}"#;

const ALREADY: &str = r#"{"answer":"already"}"#;

/// The office adds ann, whose token is `abc`, and bob, whose token is `hello`. Then ann claims `frob`.
const FROB: &[[&str; 2]] = &[[ADD_ANN, ACCEPTED], [ADD_BOB, ACCEPTED], [CLAIM, ACCEPTED]];

const ADD_ANN: &str =
    r#"{"at":1,"token":"office","do":"add_user","user":"ann","office":false,"token_sha256":"ba7816bf8f01cfea414140de5dae2223b00361a396177a9cb410ff61f20015ad"}"#;

const ADD_BOB: &str =
    r#"{"at":1,"token":"office","do":"add_user","user":"bob","office":false,"token_sha256":"2cf24dba5fb0a30e26e83b2ac5b9e29e1b161e5c1fa7425e73043362938b9824"}"#;

const CLAIM: &str = r#"{"at":10,"token":"abc","do":"claim","name":"frob"}"#;

/// Then ann uploads `frob-1.0.tar.gz`, the bytes `abc`.
const FILE: &[[&str; 2]] = &[[UPLOAD, ACCEPTED]];

const UPLOAD: &str =
    r#"{"at":11,"token":"abc","do":"upload","file":"frob-1.0.tar.gz","sha256":"ba7816bf8f01cfea414140de5dae2223b00361a396177a9cb410ff61f20015ad","hex":"616263","requires_python":""}"#;

/// Then the standing of `frob` is asked for.
const STANDING: &str = r#"{"do":"standing","name":"frob"}"#;

const FREE: &str = r#"{"name":"frob","state":"free"}"#;

const UNCHARGED: &str =
    r#"{"case":null,"charge":0,"name":"frob","owners":["ann"],"quota":1073741824,"shown":"frob","state":"held"}"#;

const CHARGED: &str =
    r#"{"case":null,"charge":3,"name":"frob","owners":["ann"],"quota":1073741824,"shown":"frob","state":"held"}"#;

/// An upload of the same file name, the byte `a`.
const OTHER_UPLOAD: &str =
    r#"{"at":14,"token":"abc","do":"upload","file":"frob-1.0.tar.gz","sha256":"ca978112ca1bbdcafac231b39a23dc4da786eff8147c4e72b9807785afee48bb","hex":"61","requires_python":""}"#;

const FILE_NAME_TAKEN: &str = r#"{"answer":"refused","code":24,"name":"FileNameTaken"}"#;

/// ann deletes the file.
const DELETE: &str = r#"{"at":12,"token":"abc","do":"delete","file":"frob-1.0.tar.gz"}"#;

/// A query of the version of the tables.
const VERSION: &str = "SELECT version FROM meta";

/// An empty database.
fn new_database(rt: &(impl Abort + AllocGlobal)) -> Connection<MemStore> {
    Connection::open_in_memory(rt.alloc()).expect(rt, "a database")
}

/// A new index in an empty database, whose one user is `office`, with the token `office`.
fn create<S: Alter + Drop>(
    rt: &(impl Abort + AllocGlobal),
    conn: Connection<S>,
) -> Result<SqlBooks<S>, Unopened<S>> {
    assert!(rt; conn.is_autocommit());
    SqlBooks::create(rt.alloc(), conn, b"office", Digest256::of(b"office"))
}

/// Opens the index in a database.
fn adopt<S: Alter + Drop>(
    rt: &(impl Abort + AllocGlobal),
    conn: Connection<S>,
) -> Result<SqlBooks<S>, Unopened<S>> {
    assert!(rt; conn.is_autocommit());
    SqlBooks::adopt(rt.alloc(), conn)
}

/// A desk over an index that was opened.
fn desk_over<S: Alter + Drop>(
    rt: &impl Abort,
    books: Result<SqlBooks<S>, Unopened<S>>,
) -> Desk<SqlBooks<S>> {
    match books {
        Ok(books) => Desk::new(books),
        Err(Unopened { why, conn }) => {
            drop(conn);
            panic!(rt; "{why:?}")
        }
    }
}

/// A desk over a new index in an empty database, after these exchanges.
fn new_desk<S: Alter + Drop>(
    rt: &(impl Abort + AllocGlobal),
    conn: Connection<S>,
    parts: &[&[[&str; 2]]],
) -> Desk<SqlBooks<S>> {
    let mut desk = desk_over(rt, create(rt, conn));
    assert_parts(rt, &mut desk, parts);
    desk
}

/// The database of a new index, after these exchanges.
fn new_index<S: Alter + Drop>(
    rt: &(impl Abort + AllocGlobal),
    conn: Connection<S>,
    parts: &[&[[&str; 2]]],
) -> Connection<S> {
    connection_of(new_desk(rt, conn, parts))
}

/// The index in a database gives these answers.
fn assert_adopted<S: Alter + Drop>(
    rt: &(impl Abort + AllocGlobal),
    conn: Connection<S>,
    exchanges: &[[&str; 2]],
) {
    drop(adopted(rt, conn, exchanges));
}

/// The database of an index that gave these answers.
fn adopted<S: Alter + Drop>(
    rt: &(impl Abort + AllocGlobal),
    conn: Connection<S>,
    exchanges: &[[&str; 2]],
) -> Connection<S> {
    let mut desk = desk_over(rt, adopt(rt, conn));
    assert_part(rt, &mut desk, exchanges);
    connection_of(desk)
}

/// The connection to a database that was refused for this reason.
fn refused<S: Alter + Drop>(
    rt: &impl Abort,
    books: Result<SqlBooks<S>, Unopened<S>>,
    want: OpenFault,
) -> Connection<S> {
    match books {
        Ok(books) => {
            drop(books.into_connection());
            panic!(rt; "an index was opened")
        }
        Err(Unopened { why, conn }) => {
            assert_eq!(rt; why, want);
            conn
        }
    }
}

/// The connection of a desk, on which SQL is run.
fn connection_of<S: Alter + Drop>(desk: Desk<SqlBooks<S>>) -> Connection<S> {
    desk.into_books().into_connection()
}

/// Makes these exchanges in order: each request gets its answer.
fn assert_parts<B: Books>(
    rt: &(impl Abort + AllocGlobal),
    desk: &mut Desk<B>,
    parts: &[&[[&str; 2]]],
) {
    for part in parts {
        assert_part(rt, desk, part);
    }
}

fn assert_part<B: Books>(rt: &(impl Abort + AllocGlobal), desk: &mut Desk<B>, part: &[[&str; 2]]) {
    for [request, answer] in part {
        assert_answer(rt, desk, request, answer);
    }
}

/// A request gets this answer.
fn assert_answer<B: Books>(
    rt: &(impl Abort + AllocGlobal),
    desk: &mut Desk<B>,
    request: &str,
    answer: &str,
) {
    let told = answer_to(rt, desk, request);
    assert_eq!(rt; told.as_str(), answer, "{request}");
}

/// The answer of a desk.
fn answer_to<B: Books>(
    rt: &(impl Abort + AllocGlobal),
    desk: &mut Desk<B>,
    request: &str,
) -> String {
    match line_of(rt, request) {
        Line::Call(call) => text_of(rt, desk.apply(rt.alloc(), call)),
        Line::Standing(name) => standing_of(rt, desk, name),
    }
}

/// What a request asks for.
fn line_of(rt: &(impl Abort + AllocGlobal), request: &str) -> Line {
    let found = read_line(rt.alloc(), request.as_bytes()).expect(rt, request);
    found.expect(rt, request)
}

fn text_of(rt: &(impl Abort + AllocGlobal), answer: Answer) -> String {
    String::from_str(rt.alloc(), answer_text(&answer)).expect(rt, "a text")
}

/// The standing of a name, or why it is not known.
fn standing_of<B: Books>(
    rt: &(impl Abort + AllocGlobal),
    desk: &mut Desk<B>,
    name: Bytes,
) -> String {
    let name = normal(rt.alloc(), name.as_slice()).expect(rt, "a name");
    match desk.standing(rt.alloc(), &name) {
        Ok(standing) => standing_text(rt.alloc(), &standing).expect(rt, "a text"),
        Err(fault) => text_of(rt, Answer::Fault(fault)),
    }
}

/// The bytes of `frob-1.0.tar.gz`, as far as they are found.
fn body<B: Books>(
    rt: &(impl Abort + AllocGlobal),
    desk: &mut Desk<B>,
) -> Result<Option<Sealed>, Fault> {
    let file = FileName::read(rt.alloc(), b"frob-1.0.tar.gz").expect(rt, "a file name");
    desk.body(rt.alloc(), &file)
}

/// This many names have a wrong charge.
fn assert_wrong_charges<B: Books>(rt: &(impl Abort + AllocGlobal), desk: &mut Desk<B>, count: u64) {
    let wrong = desk.check(rt.alloc());
    assert_eq!(rt; wrong, Ok(count));
}

/// Runs statements of SQL.
fn run<S: Alter>(rt: &impl Abort, conn: &mut Connection<S>, sql: &str) {
    conn.execute_batch(sql).expect(rt, sql);
}

/// The number that a query finds.
fn number<S: Alter>(rt: &impl Abort, conn: &mut Connection<S>, sql: &str) -> i64 {
    first_number(rt, &row(rt, conn, sql))
}

/// The row that a query finds.
fn row<S: Alter>(rt: &impl Abort, conn: &mut Connection<S>, sql: &str) -> Row {
    conn.query_row(sql, &[]).expect(rt, sql)
}

fn first_number(rt: &impl Abort, row: &Row) -> i64 {
    row.get(0).expect(rt, "a number")
}

/// A query finds this number.
fn assert_number<S: Alter>(rt: &impl Abort, conn: &mut Connection<S>, sql: &str, want: i64) {
    let found = number(rt, conn, sql);
    assert_eq!(rt; found, want, "{sql}");
}
