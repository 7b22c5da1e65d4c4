//! Malformed messages.
use super::{ACCEPTED, CLAIM, USERS, assert_exchanges};
use index_test_support::{json_reply, look, post, reply};

const BAD_HEAD: &str = json_reply!(
    "400 Bad Request",
    "37",
    r#"{"answer":"message","name":"BadHead"}"#
);

const NO_ROUTE: &str = json_reply!(
    "404 Not Found",
    "37",
    r#"{"answer":"message","name":"NoRoute"}"#
);

const BAD_BODY: &str = json_reply!(
    "400 Bad Request",
    "37",
    r#"{"answer":"message","name":"BadBody"}"#
);

/// The reply if a path has exactly these methods.
macro_rules! bad_method {
    ($methods:literal) => {
        reply!(
            "405 Method Not Allowed",
            ["Content-Type: application/json" $methods],
            "39",
            r#"{"answer":"message","name":"BadMethod"}"#
        )
    };
}

/// In the order of the checks. Bytes behind a message do not belong to it.
const FAULTY: &[[&str; 2]] = &[
    ["", BAD_HEAD],
    ["GET /simple/ HTTP/1.1\r\nHost: index\r\n", BAD_HEAD],
    ["GET /simple/ HTTP/2\r\n\r\n", BAD_HEAD],
    [look!("GET /nowhere"), NO_ROUTE],
    [look!("GET /files/nest/frob-1.0.tar.gz"), NO_ROUTE],
    [look!("DELETE /simple/"), bad_method!("Allow: GET, HEAD")],
    [
        look!("POST /files/frob/frob-1.0.tar.gz"),
        bad_method!("Allow: DELETE, GET, HEAD, PUT"),
    ],
    [look!("GET /requests"), bad_method!("Allow: POST")],
    [
        look!("POST /requests" "Content-Length: 2" "Content-Length: 2"),
        json_reply!(
            "400 Bad Request",
            "39",
            r#"{"answer":"message","name":"BadLength"}"#
        ),
    ],
    [
        look!("POST /requests"),
        json_reply!(
            "411 Length Required",
            "38",
            r#"{"answer":"message","name":"NoLength"}"#
        ),
    ],
    [
        look!("POST /requests" "Content-Length: 65537"),
        json_reply!(
            "413 Payload Too Large",
            "42",
            r#"{"answer":"message","name":"BodyTooLarge"}"#
        ),
    ],
    [post!("abc", "2", "{}"), BAD_BODY],
    [post!("abc", "2", "{}{}"), BAD_BODY],
    [
        post!(
            "abc",
            "49",
            r#"{"at":1,"token":"abc","do":"claim","name":"frob"}"#
        ),
        BAD_BODY,
    ],
    [
        post!("abc", "31", r#"{"do":"standing","name":"frob"}"#),
        BAD_BODY,
    ],
];

/// None of the messages changed anything.
const CLAIMED: &[[&str; 2]] = &[[CLAIM, ACCEPTED]];

#[test]
fn messages_are_read(rt: HostRuntime) {
    assert_exchanges(&rt, &[USERS, FAULTY, CLAIMED]);
}
