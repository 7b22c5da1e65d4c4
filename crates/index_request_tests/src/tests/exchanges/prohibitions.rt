//! Prohibited names, as others see them.
use super::{ACCEPTED, CREATED, FILE, FROB, NO_FILE, NO_PROJECT, PUT, USERS, assert_exchanges};
use index_test_support::{json_reply, look, names_json, post, project_json};

/// ann uploads a second file, the byte `a`, and yanks the release of the first.
const SECOND_FILE: &[[&str; 2]] = &[
    [PUT_SECOND, CREATED],
    [STANDING, CHARGED_FOUR],
    [YANK, ACCEPTED],
];

const PUT_SECOND: &str =
    "PUT /files/frob/frob-1.1.tar.gz HTTP/1.1\r\nHost: index\r\nX-Index-Token: abc\r\nX-Index-Sha256: ca978112ca1bbdcafac231b39a23dc4da786eff8147c4e72b9807785afee48bb\r\nContent-Length: 1\r\n\r\na";

const STANDING: &str = look!("GET /names/frob");

const CHARGED_FOUR: &str = json_reply!(
    "200 OK",
    "104",
    r#"{"case":null,"charge":4,"name":"frob","owners":["ann"],"quota":1073741824,"shown":"frob","state":"held"}"#
);

const YANK: &str = post!(
    "abc",
    "55",
    r#"{"do":"yank","name":"frob","release":"1.0","reason":""}"#
);

/// The office prohibits the name. It has no page and no file, is not on the root page, and nobody can claim it.
const PROHIBITED: &[[&str; 2]] = &[
    [PROHIBIT, ACCEPTED],
    [STANDING, STANDS_PROHIBITED],
    [look!("GET /simple/frob/"), NO_PROJECT],
    [
        look!("GET /simple/" "Accept: application/vnd.pypi.simple.v1+json"),
        NO_NAMES,
    ],
    [look!("GET /files/frob/frob-1.0.tar.gz"), NO_FILE],
    [look!("GET /files/frob/frob-1.1.tar.gz"), NO_FILE],
    [CLAIM_BY_BOB, NAME_PROHIBITED],
];

const PROHIBIT: &str = post!("office", "31", r#"{"do":"prohibit","name":"frob"}"#);

const STANDS_PROHIBITED: &str = json_reply!(
    "200 OK",
    "36",
    r#"{"name":"frob","state":"prohibited"}"#
);

const NO_NAMES: &str = names_json!(["44"] "");

const CLAIM_BY_BOB: &str = post!("hello", "28", r#"{"do":"claim","name":"frob"}"#);

const NAME_PROHIBITED: &str = json_reply!(
    "403 Forbidden",
    "54",
    r#"{"answer":"refused","code":16,"name":"NameProhibited"}"#
);

/// Then the name is allowed, and bob claims it. Bob's upload of the first file is not yanked.
const ALLOWED: &[[&str; 2]] = &[
    [ALLOW, ACCEPTED],
    [CLAIM_BY_BOB, ACCEPTED],
    [STANDING, STANDS_ANEW],
    [PUT, NOT_OWNER],
    [PUT_BY_BOB, CREATED],
    [
        look!("GET /simple/frob/" "Accept: application/vnd.pypi.simple.v1+json"),
        NOT_YANKED,
    ],
];

const ALLOW: &str = post!("office", "28", r#"{"do":"allow","name":"frob"}"#);

const STANDS_ANEW: &str = json_reply!(
    "200 OK",
    "104",
    r#"{"case":null,"charge":0,"name":"frob","owners":["bob"],"quota":1073741824,"shown":"frob","state":"held"}"#
);

const NOT_OWNER: &str = json_reply!(
    "403 Forbidden",
    "48",
    r#"{"answer":"refused","code":18,"name":"NotOwner"}"#
);

const PUT_BY_BOB: &str = put!("/files/frob/frob-1.0.tar.gz" "X-Index-Token: hello");

const NOT_YANKED: &str =
    project_json!(["236"] r#"{"filename":"frob-1.0.tar.gz","hashes":{"sha256":"ba7816bf8f01cfea414140de5dae2223b00361a396177a9cb410ff61f20015ad"},"size":3,"url":"/files/frob/frob-1.0.tar.gz"}"#,
        "frob",
        r#""1.0""#);

#[test]
fn a_prohibited_name_has_no_page(rt: HostRuntime) {
    assert_exchanges(&rt, &[USERS, FROB, FILE, SECOND_FILE, PROHIBITED, ALLOWED]);
}
