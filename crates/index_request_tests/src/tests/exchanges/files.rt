//! Files that are uploaded, fetched and deleted.
use super::{
    ACCEPTED, ALREADY, CHARGED, DELETE, FILE, FROB, GET, NO_FILE, PUT, USERS, assert_exchanges,
};
use index_test_support::{json_reply, look, reply};

const UPLOADED: &[[&str; 2]] = &[
    [PUT, ALREADY],
    [
        GET,
        "HTTP/1.1 200 OK\r\nContent-Type: application/octet-stream\r\nContent-Length: 3\r\nConnection: close\r\n\r\nabc",
    ],
    [
        look!("HEAD /files/frob/frob-1.0.tar.gz"),
        reply!(
            "200 OK",
            ["Content-Type: application/octet-stream"],
            "3",
            ""
        ),
    ],
    [look!("GET /files/frob/frob-9.tar.gz"), NO_FILE],
    CHARGED,
];

#[test]
fn a_file_is_uploaded(rt: HostRuntime) {
    assert_exchanges(&rt, &[USERS, FROB, FILE, UPLOADED]);
}

/// An upload without a token is by nobody. The office owns no name, and bob not this one.
const REFUSED: &[[&str; 2]] = &[
    [
        put!("/files/frob/frob-1.0.tar.gz"),
        "HTTP/1.1 401 Unauthorized\r\nContent-Type: application/json\r\nWWW-Authenticate: Index-Token\r\nContent-Length: 47\r\nConnection: close\r\n\r\n{\"answer\":\"refused\",\"code\":2,\"name\":\"BadToken\"}",
    ],
    [
        put!("/files/frob/frob-1.0.tar.gz" "X-Index-Token: hello"),
        json_reply!(
            "403 Forbidden",
            "48",
            r#"{"answer":"refused","code":18,"name":"NotOwner"}"#
        ),
    ],
    [GET, NO_FILE],
];

#[test]
fn uploads_are_refused(rt: HostRuntime) {
    assert_exchanges(&rt, &[USERS, FROB, REFUSED]);
}

const DELETED: &[[&str; 2]] = &[
    [DELETE, ACCEPTED],
    [GET, NO_FILE],
    [DELETE, ALREADY],
    [
        look!("GET /names/frob"),
        json_reply!(
            "200 OK",
            "104",
            r#"{"case":null,"charge":0,"name":"frob","owners":["ann"],"quota":1073741824,"shown":"frob","state":"held"}"#
        ),
    ],
];

#[test]
fn a_file_is_deleted(rt: HostRuntime) {
    assert_exchanges(&rt, &[USERS, FROB, FILE, DELETED]);
}

/// The body is one byte short.
const SHORT: &[[&str; 2]] = &[
    [
        "PUT /files/frob/frob-1.0.tar.gz HTTP/1.1\r\nX-Index-Token: abc\r\nX-Index-Sha256: ba7816bf8f01cfea414140de5dae2223b00361a396177a9cb410ff61f20015ad\r\nContent-Length: 3\r\n\r\nab",
        json_reply!(
            "400 Bad Request",
            "39",
            r#"{"answer":"message","name":"ShortBody"}"#
        ),
    ],
    [GET, NO_FILE],
];

#[test]
fn a_short_body_changes_nothing(rt: HostRuntime) {
    assert_exchanges(&rt, &[USERS, FROB, SHORT, FILE]);
}
