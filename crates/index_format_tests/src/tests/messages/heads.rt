//! Heads at their limits, and malformed heads.
use super::{assert_message, site};
use std::alloc::AllocGlobal;
use std::process::Abort;

/// A head with this many fields.
fn head_of_fields(rt: &(impl Abort + AllocGlobal), count: usize) -> Vec<u8> {
    let line = b"GET /simple/ HTTP/1.1\r\n";
    let mut head = Vec::from_slice(rt.alloc(), line).expect(rt, "a line");
    for _ in 0..count {
        head.extend_from_slice(b"Name: value\r\n")
            .expect(rt, "a field");
    }
    head.extend_from_slice(b"\r\n").expect(rt, "an end");
    head
}

#[test]
fn most_fields(rt: HostRuntime) {
    let site = site(&rt);
    let most = head_of_fields(&rt, 64);
    assert_message(&rt, &site, most.as_slice(), "GET Root");
    let more = head_of_fields(&rt, 65);
    assert_message(&rt, &site, more.as_slice(), "BadHead");
}

/// A reply to `HEAD` has no body, whatever it says (RFC 9110, section 9.3.2).
#[test]
fn heads_that_cannot_be_read_name_head(rt: HostRuntime) {
    let site = site(&rt);
    let mut fields = Vec::from_slice(rt.alloc(), b"HEAD /simple/ HTTP/1.1\r\n").expect(
        &rt, "a line",
    );
    for _ in 0..65 {
        fields
            .extend_from_slice(b"Name: value\r\n")
            .expect(&rt, "a field");
    }
    fields.extend_from_slice(b"\r\n").expect(&rt, "an end");
    assert_message(&rt, &site, fields.as_slice(), "BadHead Head");
    assert_message(&rt, &site, b"HEAD /simple/ HTTP/1.1\r\n", "BadHead Head");
    assert_message(&rt, &site, b"HEAD \0", "BadHead Head");
    assert_message(&rt, &site, b"HEAD", "BadHead");
    assert_message(&rt, &site, b"HEADER /simple/ HTTP/1.1\r\n", "BadHead");
}

/// This many bytes of a head that has not ended.
fn open_head(rt: &(impl Abort + AllocGlobal), size: usize) -> Vec<u8> {
    let front = b"GET /simple/ HTTP/1.1\r\nName: ";
    let mut head = Vec::from_slice(rt.alloc(), front).expect(rt, "a front");
    head.resize(size, b'x').expect(rt, "a value");
    head
}

/// A head of this many bytes and four more.
fn head_of_bytes(rt: &(impl Abort + AllocGlobal), size: usize) -> Vec<u8> {
    let mut head = open_head(rt, size);
    head.extend_from_slice(b"\r\n\r\n").expect(rt, "an end");
    head
}

/// Of 16,384 bytes, and of one more.
#[test]
fn most_bytes(rt: HostRuntime) {
    let site = site(&rt);
    let most = head_of_bytes(&rt, 16_380);
    assert_message(&rt, &site, most.as_slice(), "GET Root");
    let more = head_of_bytes(&rt, 16_381);
    assert_message(&rt, &site, more.as_slice(), "BadHead");
}

#[test]
fn heads_without_an_end(rt: HostRuntime) {
    let site = site(&rt);
    assert_message(&rt, &site, b"", "BadHead");
    assert_message(&rt, &site, b"GET /simple/ HTTP/1.1\r\n", "BadHead");
    let open = open_head(&rt, 16_384);
    assert_message(&rt, &site, open.as_slice(), "BadHead");
}

#[test]
fn lines_that_are_none(rt: HostRuntime) {
    let site = site(&rt);
    let no_colon = b"GET /simple/ HTTP/1.1\r\nName value\r\n\r\n";
    assert_message(&rt, &site, no_colon, "BadHead");
    let no_version = b"GET /simple/\r\n\r\n";
    assert_message(&rt, &site, no_version, "BadHead");
    let later_version = b"GET /simple/ HTTP/2.0\r\n\r\n";
    assert_message(&rt, &site, later_version, "BadHead");
    let no_text = b"GET /simple/\xff HTTP/1.1\r\n\r\n";
    assert_message(&rt, &site, no_text, "BadHead");
    let nul = b"GET /simple/\x00 HTTP/1.1\r\n\r\n";
    assert_message(&rt, &site, nul, "BadHead");
}
