//! Plain messages, and what stands around them.
use super::{assert_message, site};

/// One of each method and of each resource.
#[test]
fn messages_are_read(rt: HostRuntime) {
    let site = site(&rt);
    assert_message(&rt, &site, b"GET /simple HTTP/1.1\r\n\r\n", "GET Simple");
    assert_message(&rt, &site, b"HEAD /simple/ HTTP/1.1\r\n\r\n", "HEAD Root");
    let project = b"GET /simple/Frob HTTP/1.1\r\nHost: index.example\r\n\r\n";
    assert_message(&rt, &site, project, "GET Project Frob");
    let page = b"GET /simple/frob/ HTTP/1.0\r\nAccept: text/html\r\n\r\n";
    assert_message(&rt, &site, page, "GET ProjectPage frob");
    let name = b"GET /names/frob HTTP/1.1\r\n\r\n";
    assert_message(&rt, &site, name, "GET Name frob");
    let requests = b"POST /requests HTTP/1.1\r\nContent-Length: 2\r\n\r\n{}";
    assert_message(&rt, &site, requests, "POST Requests {}");
}

#[test]
fn messages_of_files_are_read(rt: HostRuntime) {
    let site = site(&rt);
    let look = b"GET /files/frob/frob-1.0.tar.gz HTTP/1.1\r\n\r\n";
    assert_message(&rt, &site, look, "GET File frob-1.0.tar.gz");
    let upload = b"PUT /files/frob/frob-1.0.tar.gz HTTP/1.1\r\nContent-Length: 3\r\n\r\nabc";
    assert_message(&rt, &site, upload, "PUT File frob-1.0.tar.gz abc");
    let delete = b"DELETE /files/frob/frob-1.0.tar.gz HTTP/1.1\r\n\r\n";
    assert_message(&rt, &site, delete, "DELETE File frob-1.0.tar.gz");
}

/// Empty lines may stand before the request line (RFC 9112, section 2.2), and lines may end in line feeds alone.
#[test]
fn lines_may_end_otherwise(rt: HostRuntime) {
    let site = site(&rt);
    let later = b"\r\n\nGET /simple/ HTTP/1.1\r\n\r\n";
    assert_message(&rt, &site, later, "GET Root");
    let line_feeds = b"POST /requests HTTP/1.1\nContent-Length: 2\n\n{}";
    assert_message(&rt, &site, line_feeds, "POST Requests {}");
}

#[test]
fn bytes_behind_the_message_are_none_of_it(rt: HostRuntime) {
    let site = site(&rt);
    let look = b"GET /simple/ HTTP/1.1\r\n\r\nGET /nowhere HTTP/1.1\r\n\r\n";
    assert_message(&rt, &site, look, "GET Root");
    let requests = b"POST /requests HTTP/1.1\r\nContent-Length: 2\r\n\r\n{}\r\n{}";
    assert_message(&rt, &site, requests, "POST Requests {}");
    let no_body = b"POST /requests HTTP/1.1\r\nContent-Length: 0\r\n\r\n{}";
    assert_message(&rt, &site, no_body, "POST Requests");
}
