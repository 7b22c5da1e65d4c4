//! Transcripts: constant texts that have each request as a line of JSON, and below it `= ` and its answer, byte for
//! byte. A line that begins with `#` says why. An empty line says nothing. `<abc>` is short for the digest of `abc`.
use super::{Story, assert_story};
use index_caching::CachesAnswers;
use index_cli::apply_lines;
use index_desk::Desk;
use index_io::{Input, Output};
use index_rules::Books;
use std::alloc::{AllocError, AllocGlobal};
use std::fmt;
use std::process::Abort;

mod bans;
mod cases;
mod deletes;
mod long_runs;
mod names;
mod owners;
mod prohibitions;
mod quotas;
mod uploads;
mod users;
mod yanks;

/// The office adds ann, whose token is `abc`, and bob, whose token is `hello`.
const USERS: &str = r#"
{"at":1,"token":"office","do":"add_user","user":"ann","office":false,"token_sha256":"<abc>"}
= {"answer":"accepted"}
{"at":1,"token":"office","do":"add_user","user":"bob","office":false,"token_sha256":"<hello>"}
= {"answer":"accepted"}
"#;

/// Then ann claims `frob`.
const FROB: &str = r#"
{"at":10,"token":"abc","do":"claim","name":"frob"}
= {"answer":"accepted"}
"#;

/// Then ann uploads `frob-1.0.tar.gz`, the bytes `abc`.
const FILE: &str = r#"
{"at":11,"token":"abc","do":"upload","file":"frob-1.0.tar.gz","sha256":"<abc>","hex":"616263","requires_python":""}
= {"answer":"accepted"}
"#;

/// Or ann uploads the file later, and bob opens a case later still.
const CASE: &str = r#"
{"at":12092801,"token":"abc","do":"upload","file":"frob-1.0.tar.gz","sha256":"<abc>","hex":"616263","requires_python":""}
= {"answer":"accepted"}
{"at":39999999,"token":"hello","do":"open_case","name":"frob","kind":"continue","contact":"mail","work":"fork","why":"used"}
= {"answer":"accepted"}
"#;

/// Lines, and the answers to them.
#[derive(Clone, Copy)]
struct Transcript<'a> {
    requests: &'a str,
    answers: &'a str,
}

impl Story for Transcript<'_> {
    fn run<R: Abort + AllocGlobal, B: CachesAnswers>(&self, rt: &R, desk: &mut Desk<B>) {
        assert_answers(rt, desk, self.requests, self.answers);
    }
}

/// Makes the requests of these texts in one run of a new desk over each kind of books. They get the answers in the
/// texts.
fn assert_transcript(rt: &(impl Abort + AllocGlobal), texts: &[&str]) {
    let mut requests = String::new(rt.alloc());
    let mut answers = String::new(rt.alloc());
    for text in texts {
        split(text, &mut requests, &mut answers).expect(rt, "a transcript");
    }
    let (requests, answers) = (requests.as_str(), answers.as_str());
    assert_story(rt, &Transcript { requests, answers });
}

/// Each request gets its line of the answers.
fn assert_answers<B: Books>(
    rt: &(impl Abort + AllocGlobal),
    desk: &mut Desk<B>,
    requests: &str,
    answers: &str,
) {
    let told = answers_to(rt, desk, requests);
    assert_lines(rt, requests, told.as_str(), answers);
}

/// The short form of a digest in a transcript, and the digest, as `sha256sum` prints it; the first is that of FIPS
/// 180-4.
const DIGESTS: &[[&str; 2]] = &[
    [
        "<abc>",
        "ba7816bf8f01cfea414140de5dae2223b00361a396177a9cb410ff61f20015ad",
    ],
    [
        "<abd>",
        "a52d159f262b2c6ddb724a61840befc36eb30c88877a4030b65cbe86298449c9",
    ],
    [
        "<a>",
        "ca978112ca1bbdcafac231b39a23dc4da786eff8147c4e72b9807785afee48bb",
    ],
    [
        "<hello>",
        "2cf24dba5fb0a30e26e83b2ac5b9e29e1b161e5c1fa7425e73043362938b9824",
    ],
    [
        "<JZ>",
        "f296f16660298255410aba6b8ec57ecdb56bd5757475e57e46d65911bc6b501a",
    ],
    [
        "<>",
        "e3b0c44298fc1c149afbf4c8996fb92427ae41e4649b934ca495991b7852b855",
    ],
];

/// Adds the requests and the answers of a transcript to others, a line each.
fn split(text: &str, requests: &mut String, answers: &mut String) -> fmt::Result {
    for line in text.lines() {
        match line.strip_prefix("= ") {
            Some(answer) => writeln!(answers, "{answer}")?,
            None if line.is_empty() || line.starts_with('#') => {}
            None => add_request(requests, line)?,
        }
    }
    Ok(())
}

/// Adds a request to others, with the digest in place of its short form.
fn add_request(requests: &mut String, line: &str) -> Result<(), AllocError> {
    for [placeholder, digest] in DIGESTS {
        if let Some((before, after)) = line.split_once(*placeholder) {
            return writeln!(requests, "{before}{digest}{after}");
        }
    }
    writeln!(requests, "{line}")
}

/// The output for these requests is these answers.
fn assert_lines(rt: &impl Abort, requests: &str, told: &str, answers: &str) {
    let asked_and_told = requests.lines().zip(told.lines());
    for ((request, told), answer) in asked_and_told.zip(answers.lines()) {
        assert_line(rt, request, told, answer);
    }
    assert!(rt; told == answers, "{told}");
}

fn assert_line(rt: &impl Abort, request: &str, told: &str, answer: &str) {
    assert_eq!(rt; told, answer, "{request}");
}

/// What a desk writes for these lines.
fn answers_to<B: Books>(
    rt: &(impl Abort + AllocGlobal),
    desk: &mut Desk<B>,
    lines: &str,
) -> String {
    let mut input = Input::new(lines.as_bytes());
    let mut output = Output::new(Vec::new(rt.alloc()));
    let ended = apply_lines(rt.alloc(), &mut input, &mut output, desk);
    ended.expect(rt, "a run to its end");
    String::from_utf8(output.writer).expect(rt, "UTF-8")
}

/// A text this many times.
fn repeated(rt: &(impl Abort + AllocGlobal), text: &str, times: u64) -> String {
    let mut whole = String::new(rt.alloc());
    for _ in 0..times {
        whole.push_str(text).expect(rt, "room");
    }
    whole
}
