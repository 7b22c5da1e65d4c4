//! Desks over any books, and lines asked of them.
use index_cli::{LineEnd, apply_lines};
use index_desk::Desk;
use index_digest::Digest256;
use index_io::{Input, Output};
use index_plain::PlainBooks;
use index_rules::Books;
use std::alloc::AllocGlobal;
use std::io::{Read, Write};
use std::process::Abort;

mod clients;
mod connections;
mod ends;
mod fakes;
mod faults;
mod interruptions;
mod long_pages;
mod replies;
mod rows;

/// The office adds ann, whose token is `abc`, and bob, whose token is `hello`.
const USERS: &str =
    r#"{"at":1,"token":"office","do":"add_user","user":"ann","office":false,"token_sha256":"ba7816bf8f01cfea414140de5dae2223b00361a396177a9cb410ff61f20015ad"}
{"at":1,"token":"office","do":"add_user","user":"bob","office":false,"token_sha256":"2cf24dba5fb0a30e26e83b2ac5b9e29e1b161e5c1fa7425e73043362938b9824"}
"#;

/// A claim by ann, and one by bob.
const CLAIM: &str = r#"{"at":2,"token":"abc","do":"claim","name":"frob"}"#;

const OTHER_CLAIM: &str = r#"{"at":2,"token":"hello","do":"claim","name":"nest"}"#;

/// Both claims, without a line feed after the second.
const BOTH_CLAIMS: &str = r#"{"at":2,"token":"abc","do":"claim","name":"frob"}
{"at":2,"token":"hello","do":"claim","name":"nest"}"#;

const ACCEPTED: &str = "{\"answer\":\"accepted\"}\n";

const TWICE_ACCEPTED: &str = "{\"answer\":\"accepted\"}\n{\"answer\":\"accepted\"}\n";

const ALREADY: &str = "{\"answer\":\"already\"}\n";

const BAD_BODY: &str = "{\"answer\":\"message\",\"name\":\"BadBody\"}\n";

const STANDING_OF_NEST: &str = r#"{"do":"standing","name":"nest"}"#;

const NEST_IS_FREE: &str = "{\"name\":\"nest\",\"state\":\"free\"}\n";

/// Tables whose one user is `office`, of the office, with the token `office`.
fn new_books(rt: &(impl Abort + AllocGlobal)) -> PlainBooks {
    let token = Digest256::of(b"office");
    PlainBooks::new(rt.alloc(), b"office", token).expect(rt, "books")
}

/// A desk over new books, with the users ann and bob.
fn desk_with_users<B: Books>(rt: &(impl Abort + AllocGlobal), books: B) -> Desk<B> {
    let mut desk = Desk::new(books);
    assert_answers(rt, &mut desk, USERS, TWICE_ACCEPTED);
    desk
}

/// How a run over a reader ends, with its answers to a writer.
fn run<R: Read + Drop, W: Write, B: Books>(
    rt: &impl AllocGlobal,
    desk: &mut Desk<B>,
    reader: R,
    writer: &mut W,
) -> Result<u64, LineEnd> {
    let mut input = Input::new(reader);
    let mut output = Output::new(writer);
    apply_lines(rt.alloc(), &mut input, &mut output, desk)
}

/// A run over a reader ends like this, and writes these answers.
fn assert_run<R: Read + Drop, B: Books>(
    rt: &(impl Abort + AllocGlobal),
    desk: &mut Desk<B>,
    reader: R,
    ended: Result<u64, LineEnd>,
    answers: &str,
) {
    let mut told = Vec::new(rt.alloc());
    let found = run(rt, desk, reader, &mut told);
    assert_text(rt, told, answers);
    assert!(rt; found == ended, "{answers}");
}

/// The output is these answers.
fn assert_text(rt: &impl Abort, told: Vec<u8>, answers: &str) {
    let told = String::from_utf8(told).expect(rt, answers);
    assert_eq!(rt; told.as_str(), answers);
}

/// These lines get these answers, one line each.
fn assert_answers<B: Books>(
    rt: &(impl Abort + AllocGlobal),
    desk: &mut Desk<B>,
    lines: &str,
    answers: &str,
) {
    let count = answers.lines().count() as u64;
    assert_run(rt, desk, lines.as_bytes(), Ok(count), answers);
}
