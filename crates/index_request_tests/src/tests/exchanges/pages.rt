//! Pages, and redirects to them.
use super::{FILE, FROB, NO_PROJECT, USERS, assert_exchanges};
use index_test_support::{json_reply, look, names_json, names_page, project_json, reply};

const ROOT: &str = look!("GET /simple/");

const ROOT_IN_JSON: &str = look!("GET /simple/" "Accept: application/vnd.pypi.simple.v1+json");

/// The page of no names, of 164 bytes, and in JSON of 44.
const NO_NAMES: &[[&str; 2]] = &[
    [ROOT, names_page!(["164"])],
    [ROOT_IN_JSON, names_json!(["44"] "")],
    [
        look!("HEAD /simple/"),
        "HTTP/1.1 200 OK\r\nContent-Type: text/html\r\nContent-Length: 164\r\nConnection: close\r\n\r\n",
    ],
];

#[test]
fn a_page_of_no_names(rt: HostRuntime) {
    assert_exchanges(&rt, &[NO_NAMES]);
}

/// The reply has 168 bytes, 59 of them in the body.
const NAMES: &[[&str; 2]] = &[[ROOT_IN_JSON, NAMES_IN_JSON], [TWO_FIELDS, NAMES_IN_JSON]];

/// The values of two `Accept` fields are one list (RFC 9110, section 5.3).
const TWO_FIELDS: &str =
    look!("GET /simple/" "Accept: text/html;q=0.5" "Accept: application/vnd.pypi.simple.v1+json");

const NAMES_IN_JSON: &str = names_json!(["59"] r#"{"name":"frob"}"#);

#[test]
fn a_page_of_names(rt: HostRuntime) {
    assert_eq!(rt; NAMES_IN_JSON.len(), 168);
    assert_exchanges(&rt, &[USERS, FROB, FILE, NAMES]);
}

const PROJECT: &[[&str; 2]] = &[
    [
        look!("GET /simple/frob/" "Accept: application/vnd.pypi.simple.v1+json"),
        project_json!(["236"] r#"{"filename":"frob-1.0.tar.gz","hashes":{"sha256":"ba7816bf8f01cfea414140de5dae2223b00361a396177a9cb410ff61f20015ad"},"size":3,"url":"/files/frob/frob-1.0.tar.gz"}"#,
                "frob",
                r#""1.0""#),
    ],
    [
        look!("HEAD /simple/frob/" "accept: application/vnd.pypi.simple.latest+json"),
        reply!(
            "200 OK",
            ["Content-Type: application/vnd.pypi.simple.v1+json"],
            "236",
            ""
        ),
    ],
];

#[test]
fn the_page_of_a_project(rt: HostRuntime) {
    assert_exchanges(&rt, &[USERS, FROB, FILE, PROJECT]);
}

/// A redirect has no type (PEP 503: to the normal form).
const WAYS: &[[&str; 2]] = &[
    [
        look!("GET /simple/Frob"),
        "HTTP/1.1 301 Moved Permanently\r\nLocation: /simple/frob/\r\nContent-Length: 0\r\nConnection: close\r\n\r\n",
    ],
    [
        look!("GET /simple/Frob/"),
        reply!(
            "301 Moved Permanently",
            ["Location: /simple/frob/"],
            "0",
            ""
        ),
    ],
    [
        look!("GET /simple"),
        "HTTP/1.1 301 Moved Permanently\r\nLocation: /simple/\r\nContent-Length: 0\r\nConnection: close\r\n\r\n",
    ],
    [
        look!("HEAD /simple/Frob"),
        reply!(
            "301 Moved Permanently",
            ["Location: /simple/frob/"],
            "0",
            ""
        ),
    ],
    [look!("GET /simple/-/"), NO_PROJECT],
];

#[test]
fn ways_to_pages(rt: HostRuntime) {
    assert_exchanges(&rt, &[WAYS]);
}

const NOT_ACCEPTABLE: &str = json_reply!(
    "406 Not Acceptable",
    "43",
    r#"{"answer":"message","name":"NotAcceptable"}"#
);

/// Whether a page exists is checked before its type.
const NO_TYPE: &[[&str; 2]] = &[
    [look!("GET /simple/nest/" "Accept: */*;q=0"), NO_PROJECT],
    [look!("GET /simple/frob/" "Accept: */*;q=0"), NOT_ACCEPTABLE],
    [look!("GET /simple/" "Accept: */*;q=0"), NOT_ACCEPTABLE],
    [
        look!("HEAD /simple/" "Accept: */*;q=0"),
        json_reply!("406 Not Acceptable", "43", ""),
    ],
];

#[test]
fn a_page_of_no_type(rt: HostRuntime) {
    assert_exchanges(&rt, &[USERS, FROB, NO_TYPE]);
}
