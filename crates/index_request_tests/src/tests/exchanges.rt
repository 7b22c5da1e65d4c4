//! Exchanges: a message and the whole reply to it, byte for byte.
use super::{Story, assert_story};
use index_caching::CachesAnswers;
use index_desk::Desk;
use index_http::{IoEnd, answer_one};
use index_io::{Input, Output};
use index_message::Site;
use index_test_support::{ShortReader, json_reply, look, post, reply};
use std::alloc::AllocGlobal;
use std::io::{Read, Write};
use std::process::Abort;

/// An upload of `abc` to a target, with more header lines.
macro_rules! put {
    ($target:literal $($line:literal)*) => {
        concat!(
            "PUT ",
            $target,
            " HTTP/1.1\r\nHost: index\r\n",
            $($line, "\r\n",)*
            "X-Index-Sha256: ",
            "ba7816bf8f01cfea414140de5dae2223b00361a396177a9cb410ff61f20015ad",
            "\r\nContent-Length: 3\r\n\r\nabc"
        )
    };
}

mod bans;
mod fakes;
mod faults;
mod files;
mod long_runs;
mod messages;
mod pages;
mod prohibitions;
mod stops;
mod yanks;

/// The moment of each message.
const AT: u64 = 10;

/// The reply to an accepted request.
const ACCEPTED: &str = json_reply!("200 OK", "21", r#"{"answer":"accepted"}"#);

/// The office adds ann, whose token is `abc`, and bob, whose token is `hello`.
const USERS: &[[&str; 2]] = &[[ADD_ANN, ACCEPTED], [ADD_BOB, ACCEPTED]];

const ADD_ANN: &str = post!(
    "office",
    "127",
    r#"{"do":"add_user","user":"ann","office":false,"token_sha256":"ba7816bf8f01cfea414140de5dae2223b00361a396177a9cb410ff61f20015ad"}"#
);

const ADD_BOB: &str = post!(
    "office",
    "127",
    r#"{"do":"add_user","user":"bob","office":false,"token_sha256":"2cf24dba5fb0a30e26e83b2ac5b9e29e1b161e5c1fa7425e73043362938b9824"}"#
);

/// Then ann claims `frob`.
const FROB: &[[&str; 2]] = &[[CLAIM, ACCEPTED]];

const CLAIM: &str = post!("abc", "28", r#"{"do":"claim","name":"frob"}"#);

/// Then ann uploads `frob-1.0.tar.gz`, the bytes `abc`.
const FILE: &[[&str; 2]] = &[[PUT, CREATED]];

const PUT: &str = put!("/files/frob/frob-1.0.tar.gz" "X-Index-Token: abc");

const CREATED: &str =
    "HTTP/1.1 201 Created\r\nContent-Type: application/json\r\nContent-Length: 21\r\nConnection: close\r\n\r\n{\"answer\":\"accepted\"}";

/// The reply if ann uploads the file again.
const ALREADY: &str = json_reply!("200 OK", "20", r#"{"answer":"already"}"#);

/// The standing of `frob` with one file of three bytes.
const CHARGED: [&str; 2] = [
    look!("GET /names/frob"),
    json_reply!(
        "200 OK",
        "104",
        r#"{"case":null,"charge":3,"name":"frob","owners":["ann"],"quota":1073741824,"shown":"frob","state":"held"}"#
    ),
];

/// ann deletes the file.
const DELETE: &str = look!("DELETE /files/frob/frob-1.0.tar.gz" "X-Index-Token: abc");

/// A request for the bytes of the file.
const GET: &str = look!("GET /files/frob/frob-1.0.tar.gz");

/// The reply with the bytes `abc` of a file.
const BYTES: &str = reply!(
    "200 OK",
    ["Content-Type: application/octet-stream"],
    "3",
    "abc"
);

/// The reply if the file does not exist.
const NO_FILE: &str = json_reply!(
    "404 Not Found",
    "46",
    r#"{"answer":"refused","code":22,"name":"NoFile"}"#
);

/// The reply if the name is not held.
const NO_PROJECT: &str = json_reply!(
    "404 Not Found",
    "49",
    r#"{"answer":"refused","code":17,"name":"NoProject"}"#
);

/// The routes.
fn new_site(rt: &(impl Abort + AllocGlobal)) -> Site {
    Site::new(rt.alloc()).expect(rt, "routes")
}

/// Exchanges, whose messages come in reads of at most this many bytes.
#[derive(Clone, Copy)]
struct Exchanges<'a> {
    site: &'a Site,
    parts: &'a [&'a [[&'a str; 2]]],
    most: usize,
}

impl Story for Exchanges<'_> {
    fn run<R: Abort + AllocGlobal, B: CachesAnswers>(&self, rt: &R, desk: &mut Desk<B>) {
        assert_parts(rt, self.site, desk, self.parts, self.most);
    }
}

/// Makes these exchanges in order at a new desk over each kind of books: each message as a whole, and at another desk
/// one byte at a time.
fn assert_exchanges(rt: &(impl Abort + AllocGlobal), parts: &[&[[&str; 2]]]) {
    let site = &new_site(rt);
    for most in [usize::MAX, 1] {
        let parts = &*parts;
        assert_story(rt, &Exchanges { site, parts, most });
    }
}

/// ann claims `frob`.
fn claim_frob<B: CachesAnswers>(rt: &(impl Abort + AllocGlobal), site: &Site, desk: &mut Desk<B>) {
    assert_parts(rt, site, desk, &[USERS, FROB], usize::MAX);
}

/// Makes these exchanges in order, in reads of at most this many bytes.
fn assert_parts<B: CachesAnswers>(
    rt: &(impl Abort + AllocGlobal),
    site: &Site,
    desk: &mut Desk<B>,
    parts: &[&[[&str; 2]]],
    most: usize,
) {
    for part in parts {
        for [message, reply] in *part {
            assert_reply(rt, site, desk, message, reply, most);
        }
    }
}

/// A message that comes in reads of at most this many bytes gets this reply.
fn assert_reply<B: CachesAnswers>(
    rt: &(impl Abort + AllocGlobal),
    site: &Site,
    desk: &mut Desk<B>,
    message: &str,
    reply: &str,
    most: usize,
) {
    let reader = ShortReader {
        rest: message.as_bytes(),
        at_a_time: most,
        fails: false,
    };
    let mut told = Vec::new(rt.alloc());
    let ended = tell(rt, site, desk, reader, &mut told);
    assert!(rt; ended == Ok(()), "{message}");
    assert_text(rt, told, reply, message);
}

/// The message gets exactly this reply.
fn assert_text(rt: &(impl Abort + AllocGlobal), told: Vec<u8>, reply: &str, message: &str) {
    let told = String::from_utf8(told).expect(rt, message);
    assert_eq!(rt; told.as_str(), reply, "{message}");
}

/// How a desk ends that answers a reader on a writer.
fn tell<R: Read + Drop, W: Write, B: CachesAnswers>(
    rt: &impl AllocGlobal,
    site: &Site,
    desk: &mut Desk<B>,
    reader: R,
    writer: &mut W,
) -> Result<(), IoEnd> {
    let mut input = Input::new(reader);
    let mut output = Output::new(writer);
    answer_one(rt.alloc(), site, &mut input, &mut output, desk, AT)
}
