//! Banned files, as others see them.
use super::{
    ACCEPTED, ALREADY, BYTES, CHARGED, FILE, FROB, GET, NO_FILE, PUT, USERS, assert_exchanges,
};
use index_test_support::{json_reply, look, post, project_json};

const PAGE: &str = look!("GET /simple/frob/" "Accept: application/vnd.pypi.simple.v1+json");

/// The file and its page are asked for. The ban removes them from the cache.
const ASKED: &[[&str; 2]] = &[
    [GET, BYTES],
    [
        PAGE,
        project_json!(["236"] r#"{"filename":"frob-1.0.tar.gz","hashes":{"sha256":"ba7816bf8f01cfea414140de5dae2223b00361a396177a9cb410ff61f20015ad"},"size":3,"url":"/files/frob/frob-1.0.tar.gz"}"#,
                "frob",
                r#""1.0""#),
    ],
    CHARGED,
];

/// The office bans the file. Its bytes are deleted, the page does not list it, and nobody can upload it again.
const BANNED: &[[&str; 2]] = &[
    [BAN, ACCEPTED],
    [GET, NO_FILE],
    [look!("HEAD /files/frob/frob-1.0.tar.gz"), NO_FILE_HEAD],
    [PAGE, NO_FILES],
    [look!("GET /names/frob"), UNCHARGED],
    [PUT, FILE_BANNED],
    [BAN, ALREADY],
    [GET, NO_FILE],
];

const BAN: &str = post!(
    "office",
    "42",
    r#"{"do":"ban_file","file":"frob-1.0.tar.gz"}"#
);

const NO_FILE_HEAD: &str = json_reply!("404 Not Found", "46", "");

const NO_FILES: &str = project_json!(["69"] "", "frob", "");

const UNCHARGED: &str = json_reply!(
    "200 OK",
    "104",
    r#"{"case":null,"charge":0,"name":"frob","owners":["ann"],"quota":1073741824,"shown":"frob","state":"held"}"#
);

const FILE_BANNED: &str = json_reply!(
    "403 Forbidden",
    "50",
    r#"{"answer":"refused","code":25,"name":"FileBanned"}"#
);

#[test]
fn a_banned_file_is_gone(rt: HostRuntime) {
    assert_exchanges(&rt, &[USERS, FROB, FILE, ASKED, BANNED]);
}
