//! The ends of a run over lines.
use super::fakes::failing;
use super::{
    ACCEPTED, ALREADY, BAD_BODY, BOTH_CLAIMS, CLAIM, NEST_IS_FREE, OTHER_CLAIM, STANDING_OF_NEST,
    TWICE_ACCEPTED, assert_answers, assert_run, desk_with_users, new_books, run,
};
use index_cli::LineEnd;
use index_desk::Desk;
use index_rules::Books;
use index_test_support::ShortWriter;
use std::alloc::AllocGlobal;
use std::process::Abort;

/// A new desk with users gives these answers to these lines.
fn assert_count(rt: &(impl Abort + AllocGlobal), input: &[u8], lines: u64, output: &str) {
    assert_count_over(rt, new_books(rt), input, lines, output);
}

fn assert_count_over<B: Books + Drop>(
    rt: &(impl Abort + AllocGlobal),
    books: B,
    input: &[u8],
    lines: u64,
    output: &str,
) {
    let mut desk = desk_with_users(rt, books);
    assert_run(rt, &mut desk, input, Ok(lines), output);
}

const BAD_BODY_AND_ACCEPTED: &str =
    "{\"answer\":\"message\",\"name\":\"BadBody\"}\n{\"answer\":\"accepted\"}\n";

const BAD_NAME: &str = "{\"answer\":\"refused\",\"code\":5,\"name\":\"BadName\"}\n";

#[test]
fn counts_lines(rt: HostRuntime) {
    assert_count(&rt, b"", 0, "");
    assert_count(&rt, b"\n", 1, BAD_BODY);
    assert_count(&rt, b"{}", 1, BAD_BODY);
    assert_count(&rt, CLAIM.as_bytes(), 1, ACCEPTED);
    assert_count(&rt, BOTH_CLAIMS.as_bytes(), 2, TWICE_ACCEPTED);
    let after_an_empty_line =
        b"\n{\"at\":2,\"token\":\"abc\",\"do\":\"claim\",\"name\":\"frob\"}\n";
    assert_count(&rt, after_an_empty_line, 2, BAD_BODY_AND_ACCEPTED);
    assert_count(&rt, br#"{"do":"standing","name":"-a"}"#, 1, BAD_NAME);
}

/// A line with a claim, of this many bytes, and a line with another claim.
fn with_long_line(rt: &(impl Abort + AllocGlobal), size: usize) -> Vec<u8> {
    let mut input = Vec::from_slice(rt.alloc(), CLAIM.as_bytes()).expect(rt, "a claim");
    input.resize(size, b' ').expect(rt, "spaces");
    input.push(b'\n').expect(rt, "a line feed");
    let other = input.extend_from_slice(OTHER_CLAIM.as_bytes());
    other.expect(rt, "another claim");
    input
}

/// A line of 65,536 bytes is read, and a longer one is skipped up to its line feed.
#[test]
fn skips_a_line_that_is_too_long(rt: HostRuntime) {
    let input = with_long_line(&rt, 65_536);
    assert_count(&rt, input.as_slice(), 2, TWICE_ACCEPTED);
    for size in [65_537, 70_000] {
        let input = with_long_line(&rt, size);
        assert_count(&rt, input.as_slice(), 2, BAD_BODY_AND_ACCEPTED);
    }
}

/// ann has claimed `frob`, and nobody `nest`.
fn assert_first_claim_alone<B: Books>(rt: &(impl Abort + AllocGlobal), desk: &mut Desk<B>) {
    assert_answers(rt, desk, CLAIM, ALREADY);
    assert_answers(rt, desk, STANDING_OF_NEST, NEST_IS_FREE);
}

/// The line before the failure is applied, and the one that it cuts is not.
fn fail_read<B: Books + Drop>(rt: &(impl Abort + AllocGlobal), books: B) {
    let mut desk = desk_with_users(rt, books);
    let reader = failing(BOTH_CLAIMS.as_bytes());
    assert_run(rt, &mut desk, reader, Err(LineEnd::ReadFault), ACCEPTED);
    assert_first_claim_alone(rt, &mut desk);
}

#[test]
fn ends_where_a_read_fails(rt: HostRuntime) {
    fail_read(&rt, new_books(&rt));
}

/// Six lines: the office adds two users, each of whom claims a name that is then held.
const LINES: &str =
    r#"{"at":1,"token":"office","do":"add_user","user":"ann","office":false,"token_sha256":"ba7816bf8f01cfea414140de5dae2223b00361a396177a9cb410ff61f20015ad"}
{"at":1,"token":"office","do":"add_user","user":"bob","office":false,"token_sha256":"2cf24dba5fb0a30e26e83b2ac5b9e29e1b161e5c1fa7425e73043362938b9824"}
{"at":2,"token":"abc","do":"claim","name":"Frob._-Nest"}
{"at":3,"token":"abc","do":"claim","name":"frob-nest"}
{"at":4,"token":"hello","do":"claim","name":"FROB.NEST"}
{"do":"standing","name":"frob_nest"}
"#;

const ANSWERS: &str = r#"{"answer":"accepted"}
{"answer":"accepted"}
{"answer":"accepted"}
{"answer":"already"}
{"answer":"refused","code":19,"name":"NameHeld"}
{"case":null,"charge":0,"name":"frob-nest","owners":["ann"],"quota":1073741824,"shown":"Frob._-Nest","state":"held"}
"#;

/// The number of whole lines.
fn whole_lines(front: &[u8]) -> usize {
    let mut count = 0usize;
    for byte in front {
        if *byte == b'\n' {
            count = count.saturating_add(1);
        }
    }
    count
}

/// A read fails after this front of the lines: the whole lines are answered, and no other is.
fn fail_behind<B: Books + Drop>(rt: &(impl Abort + AllocGlobal), books: B, front: &[u8]) {
    let mut answers = String::new(rt.alloc());
    for answer in ANSWERS.lines().take(whole_lines(front)) {
        answers.push_str(answer).expect(rt, answer);
        answers.push('\n').expect(rt, answer);
    }
    let mut desk = Desk::new(books);
    let reader = failing(front);
    let ended = Err(LineEnd::ReadFault);
    assert_run(rt, &mut desk, reader, ended, answers.as_str());
}

#[test]
fn each_read_of_lines_fails_in_turn(rt: HostRuntime) {
    let lines = LINES.as_bytes();
    for count in 0..lines.len() {
        fail_behind(&rt, new_books(&rt), &lines[..count]);
    }
}

/// A writer takes these bytes of the first answer.
fn cut<B: Books>(rt: &(impl Abort + AllocGlobal), desk: &mut Desk<B>, taken: &str, fails: bool) {
    let mut writer = ShortWriter {
        taken: Vec::new(rt.alloc()),
        room: taken.len(),
        at_a_time: usize::MAX,
        fails,
    };
    let ended = run(rt, desk, BOTH_CLAIMS.as_bytes(), &mut writer);
    let is_taken = writer.taken.as_slice() == taken.as_bytes();
    drop(writer);
    assert!(rt; is_taken && ended == Err(LineEnd::WriteFault), "{taken}");
}

/// The line whose answer was cut is applied, and the one after it is not.
fn assert_cut<B: Books + Drop>(
    rt: &(impl Abort + AllocGlobal),
    books: B,
    taken: &str,
    fails: bool,
) {
    let mut desk = desk_with_users(rt, books);
    cut(rt, &mut desk, taken, fails);
    assert_first_claim_alone(rt, &mut desk);
}

/// In the middle of an answer, before it, and before its line feed.
#[test]
fn ends_where_a_write_takes_no_byte(rt: HostRuntime) {
    for taken in ["{\"ans", "", "{\"answer\":\"accepted\"}"] {
        assert_cut(&rt, new_books(&rt), taken, false);
    }
}

#[test]
fn ends_where_a_write_fails(rt: HostRuntime) {
    for taken in ["{\"ans", "", "{\"answer\":\"accepted\"}"] {
        assert_cut(&rt, new_books(&rt), taken, true);
    }
}

/// Whether this is the name of an end.
fn is_name(rt: &(impl Abort + AllocGlobal), end: LineEnd, name: &str) -> bool {
    let text = format!(in rt.alloc(); "{end}").expect(rt, name);
    text.as_str() == name
}

#[test]
fn names_the_ends(rt: HostRuntime) {
    assert!(rt; is_name(&rt, LineEnd::ReadFault, "ReadFault"));
    assert!(rt; is_name(&rt, LineEnd::WriteFault, "WriteFault"));
    assert!(rt; is_name(&rt, LineEnd::OutOfMemory, "OutOfMemory"));
}
