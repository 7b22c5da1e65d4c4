//! The calls of a desk.
use super::requests::{add_user, call_by, claim, upload};
use super::{OF_ABC, file_name, name, new_books};
use index_desk::Desk;
use index_rules::{Answer, Books, Call, Keys, NameRecord, Refusal, Request, Standing};
use std::alloc::AllocGlobal;
use std::process::Abort;

/// The answer to a request by the bearer of a token.
pub(super) fn assert_answer<B: Books>(
    rt: &(impl Abort + AllocGlobal),
    desk: &mut Desk<B>,
    token: &str,
    request: Request,
    want: Answer,
) {
    let answer = desk.apply(rt.alloc(), call_by(token, request));
    assert!(rt; answer == want, "{answer:?}");
}

/// A desk over new books with the user ann, whose token is `abc` and who has claimed `frob`.
pub(super) fn desk_with_frob<B: Books>(rt: &(impl Abort + AllocGlobal), books: B) -> Desk<B> {
    let mut desk = Desk::new(books);
    let request = add_user(rt, "ann", false, OF_ABC);
    assert_answer(rt, &mut desk, "office", request, Answer::Accepted);
    let request = claim(rt, "frob");
    assert_answer(rt, &mut desk, "abc", request, Answer::Accepted);
    desk
}

/// ann's upload of this many zeros gets this answer. The digest is that of 16,777,216 zeros, as GNU's sha256sum prints
/// it.
fn assert_zeros<B: Books>(
    rt: &(impl Abort + AllocGlobal),
    desk: &mut Desk<B>,
    size: usize,
    want: Answer,
) {
    let digest = "080acf35a507ac9849cfcba47dc2ad83e01b75663a516279c8b9d243b719643e";
    let body = vec![in rt.alloc(); 0; size].expect(rt, "a body");
    let request = upload(rt, "frob-1.0.tar.gz", digest, body);
    assert_answer(rt, desk, "abc", request, want);
}

fn upload_zeros<B: Books + Drop>(rt: &(impl Abort + AllocGlobal), books: B) {
    let mut desk = desk_with_frob(rt, books);
    let too_large = Answer::Refused(Refusal::TooLarge);
    assert_zeros(rt, &mut desk, 16_777_217, too_large);
    assert_zeros(rt, &mut desk, 16_777_216, Answer::Accepted);
}

#[test]
fn a_body_has_at_most_sixteen_mebibytes(rt: HostRuntime) {
    upload_zeros(&rt, new_books(&rt));
}

/// Whether the bytes of `frob-1.0.tar.gz` are `abc`, or `None` if there are none.
fn assert_body<B: Books>(
    rt: &(impl Abort + AllocGlobal),
    desk: &mut Desk<B>,
    is_abc: Option<bool>,
) {
    let file = file_name(rt, "frob-1.0.tar.gz");
    let body = desk.body(rt.alloc(), &file).expect(rt, "a body");
    let found = body.as_ref().map(|body| body.bytes() == b"abc".as_slice());
    assert!(rt; found == is_abc);
}

/// ann's upload of the bytes `abc`.
fn upload_of_abc(rt: &(impl Abort + AllocGlobal)) -> Call {
    let body = Vec::from_slice(rt.alloc(), b"abc").expect(rt, "a body");
    call_by("abc", upload(rt, "frob-1.0.tar.gz", OF_ABC, body))
}

/// A run over these calls gives these answers.
fn assert_run<B: Books>(
    rt: &(impl Abort + AllocGlobal),
    desk: &mut Desk<B>,
    calls: Vec<Call>,
    want: &[Answer],
) {
    let answers = desk.run(rt.alloc(), calls).expect(rt, "answers");
    assert!(rt; answers.as_slice() == want);
}

/// This many of these uploads.
fn uploads_of_abc(rt: &(impl Abort + AllocGlobal), count: usize) -> Vec<Call> {
    let mut calls = Vec::new(rt.alloc());
    for _ in 0..count {
        calls.push(upload_of_abc(rt)).expect(rt, "calls");
    }
    calls
}

fn run_uploads<B: Books + Drop>(rt: &(impl Abort + AllocGlobal), books: B) {
    let mut desk = desk_with_frob(rt, books);
    assert_run(rt, &mut desk, uploads_of_abc(rt, 0), &[]);
    assert_body(rt, &mut desk, None);
    let calls = uploads_of_abc(rt, 2);
    assert_run(rt, &mut desk, calls, &[Answer::Accepted, Answer::Already]);
    assert_body(rt, &mut desk, Some(true));
}

#[test]
fn a_run_keeps_the_bytes(rt: HostRuntime) {
    run_uploads(&rt, new_books(&rt));
}

/// Whether the standing of a name is that of a held one.
fn stands_held<B: Books>(rt: &(impl Abort + AllocGlobal), desk: &mut Desk<B>, text: &str) -> bool {
    let name = name(rt, text);
    let standing = desk.standing(rt.alloc(), &name).expect(rt, text);
    let is_held = matches!(&standing, Standing::Held(_));
    drop(standing);
    is_held
}

fn assert_standings<B: Books + Drop>(rt: &(impl Abort + AllocGlobal), books: B) {
    let mut desk = desk_with_frob(rt, books);
    assert!(rt; stands_held(rt, &mut desk, "frob"));
    assert!(rt; !stands_held(rt, &mut desk, "nest"));
}

#[test]
fn a_desk_tells_standings(rt: HostRuntime) {
    assert_standings(&rt, new_books(&rt));
}

/// Whether the books have a name as held.
fn has_held<B: Books>(rt: &(impl Abort + AllocGlobal), books: &mut B, text: &str) -> bool {
    let name = name(rt, text);
    let keys = Keys::of_name(&name).expect(rt, text);
    let view = books.view(rt.alloc(), &keys).expect(rt, text);
    matches!(&view.name, Some(NameRecord::Held(_)))
}

fn assert_books_back<B: Books + Drop>(rt: &(impl Abort + AllocGlobal), books: B) {
    let mut books = desk_with_frob(rt, books).into_books();
    assert!(rt; has_held(rt, &mut books, "frob"));
}

#[test]
fn a_desk_gives_its_books_back(rt: HostRuntime) {
    assert_books_back(&rt, new_books(&rt));
}
