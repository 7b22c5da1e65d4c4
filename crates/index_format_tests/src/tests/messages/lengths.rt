//! The lengths of bodies.
use super::{assert_message, site};
use index_message::Site;
use std::alloc::AllocGlobal;
use std::process::Abort;

const POST: &str = "POST /requests HTTP/1.1\r\n";

const PUT: &str = "PUT /files/frob/frob-1.0.tar.gz HTTP/1.1\r\n";

/// A message of this request line and these fields, which has no body, has this text.
fn assert_length(
    rt: &(impl Abort + AllocGlobal),
    site: &Site,
    line: &str,
    fields: &str,
    text: &str,
) {
    let mut message = Vec::from_slice(rt.alloc(), line.as_bytes()).expect(rt, line);
    let more = message.extend_from_slice(fields.as_bytes());
    more.expect(rt, fields);
    message.extend_from_slice(b"\r\n").expect(rt, "an end");
    assert_message(rt, site, message.as_slice(), text);
}

const BAD_LENGTHS: [&str; 9] = [
    "Content-Length: 0\r\nContent-Length: 0\r\n",
    "Content-Length: 1234567890123456789\r\n",
    "Content-Length: +3\r\n",
    "Content-Length: -3\r\n",
    "Content-Length: 0x3\r\n",
    "Content-Length: 0, 0\r\n",
    "Content-Length:\r\n",
    "Transfer-Encoding: chunked\r\n",
    "Content-Length: 0\r\nTransfer-Encoding: chunked\r\n",
];

fn assert_bad_lengths(rt: &(impl Abort + AllocGlobal), line: &str) {
    let site = site(rt);
    for fields in BAD_LENGTHS {
        assert_length(rt, &site, line, fields, "BadLength");
    }
}

#[test]
fn lengths_that_are_none(rt: HostRuntime) {
    assert_bad_lengths(&rt, POST);
    assert_bad_lengths(&rt, PUT);
}

#[test]
fn bodies_without_a_length(rt: HostRuntime) {
    let site = site(&rt);
    assert_length(&rt, &site, POST, "", "NoLength");
    assert_length(&rt, &site, PUT, "Length: 3\r\n", "NoLength");
}

/// The most bytes are waited for.
#[test]
fn bodies_of_the_most_bytes(rt: HostRuntime) {
    let site = site(&rt);
    let upload = "Content-Length: 16777216\r\n";
    assert_length(&rt, &site, PUT, upload, "ShortBody");
    let request = "Content-Length: 65536\r\n";
    assert_length(&rt, &site, POST, request, "ShortBody");
}

#[test]
fn bodies_that_are_too_large(rt: HostRuntime) {
    let site = site(&rt);
    let upload = "Content-Length: 16777217\r\n";
    assert_length(&rt, &site, PUT, upload, "BodyTooLarge");
    let huge = "Content-Length: 99999999999\r\n";
    assert_length(&rt, &site, PUT, huge, "BodyTooLarge");
    let request = "Content-Length: 65537\r\n";
    assert_length(&rt, &site, POST, request, "BodyTooLarge");
    let longest = "Content-Length: 999999999999999999\r\n";
    assert_length(&rt, &site, POST, longest, "BodyTooLarge");
}

#[test]
fn bodies_that_are_short(rt: HostRuntime) {
    let site = site(&rt);
    let requests = b"POST /requests HTTP/1.1\r\nContent-Length: 3\r\n\r\n{}";
    assert_message(&rt, &site, requests, "ShortBody");
    let upload = b"PUT /files/frob/frob-1.0.tar.gz HTTP/1.1\r\nContent-Length: 4\r\n\r\nabc";
    assert_message(&rt, &site, upload, "ShortBody");
}

/// Only `PUT` and `POST` have a body, whatever the fields say.
#[test]
fn methods_without_a_body(rt: HostRuntime) {
    let site = site(&rt);
    let chunked = "Transfer-Encoding: chunked\r\n";
    let look = "GET /simple/ HTTP/1.1\r\n";
    assert_length(&rt, &site, look, chunked, "GET Root");
    let delete = "DELETE /files/frob/x HTTP/1.1\r\n";
    let length = "Content-Length: 3\r\n";
    assert_length(&rt, &site, delete, length, "DELETE File x");
}

/// A path comes before a method, and a method before a length.
#[test]
fn faults_have_an_order(rt: HostRuntime) {
    let site = site(&rt);
    let chunked = "Transfer-Encoding: chunked\r\n";
    let nowhere = "PATCH /nowhere HTTP/1.1\r\n";
    assert_length(&rt, &site, nowhere, chunked, "NoRoute");
    let no_method = "POST /simple/ HTTP/1.1\r\n";
    assert_length(&rt, &site, no_method, chunked, "BadMethod Reading");
}
