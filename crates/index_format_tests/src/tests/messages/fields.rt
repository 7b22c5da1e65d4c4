//! The header fields of a request.
use super::site;
use index_io::Input;
use index_message::{HttpRequest, Message, read_message};
use std::alloc::AllocGlobal;
use std::process::Abort;

/// Fields in several cases, with spaces and tabs around their values; one of them occurs twice.
const HEAD: &[u8] = b"GET /simple/ HTTP/1.1\r
X-INDEX-TOKEN:abc\r
x-index-at: \t 12 \t \r
Accept: text/html;q=0.5,\ttext/* \r
aCCEPT:\tapplication/json\r
Empty: \t\r
\r
";

/// The request with these fields.
fn request(rt: &(impl Abort + AllocGlobal)) -> HttpRequest {
    let site = site(rt);
    let mut input = Input::new(HEAD);
    match read_message(rt.alloc(), &site, &mut input) {
        Ok(Message::Whole { request, .. }) => request,
        _ => rt.abort(),
    }
}

fn assert_value(rt: &impl Abort, request: &HttpRequest, name: &[u8], value: &str) {
    assert_eq!(rt; request.value(name), value.as_bytes());
}

/// Of a field that occurs twice the first counts, and a missing one counts as empty.
#[test]
fn values_of_fields(rt: HostRuntime) {
    let request = request(&rt);
    assert_value(&rt, &request, b"X-Index-Token", "abc");
    assert_value(&rt, &request, b"x-index-token", "abc");
    assert_value(&rt, &request, b"X-Index-At", "12");
    assert_value(&rt, &request, b"accept", "text/html;q=0.5,\ttext/*");
    assert_value(&rt, &request, b"empty", "");
    assert_value(&rt, &request, b"x-index", "");
}

/// Values, each with a line feed behind it.
fn lines_of(rt: &(impl Abort + AllocGlobal), values: &[&[u8]]) -> Vec<u8> {
    let mut lines = Vec::new(rt.alloc());
    for value in values {
        lines.extend_from_slice(value).expect(rt, "a value");
        lines.push(b'\n').expect(rt, "a line feed");
    }
    lines
}

/// The fields of this name have these values, in this order.
fn assert_values(rt: &(impl Abort + AllocGlobal), request: &HttpRequest, name: &[u8], lines: &str) {
    let values = request.values(rt.alloc(), name).expect(rt, "values");
    let found = lines_of(rt, values.as_slice());
    drop(values);
    assert_eq!(rt; found.as_slice(), lines.as_bytes());
}

#[test]
fn values_in_order(rt: HostRuntime) {
    let request = request(&rt);
    let both = "text/html;q=0.5,\ttext/*\napplication/json\n";
    assert_values(&rt, &request, b"Accept", both);
    assert_values(&rt, &request, b"X-Index-At", "12\n");
    assert_values(&rt, &request, b"Missing", "");
}
