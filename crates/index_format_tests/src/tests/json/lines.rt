//! The requests in lines.
use super::{OF_A, OF_ABC};
use index_digest::Digest256;
use index_json::{Line, read_line};
use index_rules::{Call, Request};
use std::alloc::AllocGlobal;
use std::process::Abort;

/// Whether a line is a request.
fn asks(rt: &(impl Abort + AllocGlobal), line: &[u8]) -> bool {
    let found = read_line(rt.alloc(), line).expect(rt, "a line");
    let is_there = found.is_some();
    drop(found);
    is_there
}

/// Whether this is the claim of a name at a moment by the bearer of a token.
fn is_claim(line: &Option<Line>, moment: u64, digest: Digest256, text: &str) -> bool {
    let Some(Line::Call(Call { at, token, request })) = line else {
        return false;
    };
    let Request::Claim { name } = request else {
        return false;
    };
    *at == moment && *token == digest && name.as_slice() == text.as_bytes()
}

fn assert_claim(
    rt: &(impl Abort + AllocGlobal),
    line: &str,
    moment: u64,
    digest: Digest256,
    name: &str,
) {
    let found = read_line(rt.alloc(), line.as_bytes()).expect(rt, line);
    let is_claim = is_claim(&found, moment, digest, name);
    drop(found);
    assert!(rt; is_claim, "{line}");
}

#[test]
fn reads_a_claim_in_any_order(rt: HostRuntime) {
    let digest = Digest256::read_hex(OF_ABC.as_bytes()).expect(&rt, "a digest");
    for line in [
        r#"{"at":2,"token":"abc","do":"claim","name":"Frob._-Nest"}"#,
        r#"{ "name":"Frob._-Nest","do":"claim", "token":"abc","at":2}"#,
    ] {
        assert_claim(&rt, line, 2, digest, "Frob._-Nest");
    }
}

/// Malformed lines, the first of them empty, with the least numbers past a `u64`.
const NO_LINES: &str = r#"
{}
[]
claim
{"do":"claim","name":"a"}
{"at":1,"token":"t","do":"claim"}
{"at":1,"token":"t","do":"claim","name":"a","x":1}
{"at":1,"token":"t","do":"claim","name":1}
{"at":1,"token":"t","do":"lay_claim","name":"a"}
{"at":1.0,"token":"t","do":"claim","name":"a"}
{"at":1e2,"token":"t","do":"claim","name":"a"}
{"at":-1,"token":"t","do":"claim","name":"a"}
{"at":18446744073709551616,"token":"t","do":"claim","name":"a"}
{"at":1,"token":1,"do":"claim","name":"a"}
{"at":1,"token":"t","do":"standing","name":"a"}
{"do":"standing"}"#;

#[test]
fn refuses_what_is_no_line(rt: HostRuntime) {
    for line in NO_LINES.lines() {
        assert!(rt; !asks(&rt, line.as_bytes()), "{line}");
    }
    assert!(rt; !asks(&rt, b"{\"do\":\"standing\",\"name\":\"\xff\"}"));
}

#[test]
fn reads_the_greatest_number(rt: HostRuntime) {
    let line = r#"{"at":18446744073709551615,"token":"t","do":"claim","name":"a"}"#;
    let digest = Digest256::of(b"t");
    assert_claim(&rt, line, 18_446_744_073_709_551_615, digest, "a");
}

/// Rows with their own keys.
const ROWS: &str = r#""do":"add_user","user":"u","office":true,"token_sha256":"t"
"do":"set_token","user":"u","token_sha256":"t"
"do":"set_quota","name":"a","quota":18446744073709551615
"do":"prohibit","name":"a"
"do":"allow","name":"a"
"do":"claim","name":"a"
"do":"relinquish","name":"a"
"do":"add_owner","name":"a","user":"u"
"do":"remove_owner","name":"a","user":"u"
"do":"upload","file":"f","sha256":"","hex":"","requires_python":""
"do":"delete","file":"f"
"do":"ban_file","file":"f"
"do":"yank","name":"a","release":"1","reason":""
"do":"unyank","name":"a","release":"1"
"do":"open_case","name":"a","kind":"continue","contact":"c","work":"w","why":"y"
"do":"open_case","name":"a","kind":"reuse","contact":"","work":"","why":""
"do":"record_attempt","name":"a","means":"profile","sent":true
"do":"record_attempt","name":"a","means":"author","sent":false
"do":"record_attempt","name":"a","means":"pages","sent":false
"do":"transfer","name":"a","quiet":false
"do":"close_case","name":"a"
"do":"answer_case","name":"a""#;

/// Rows with a key too few, one too many, or a value of another kind.
const NO_ROWS: &str = r#""do":"add_user","user":"u","token_sha256":"t"
"do":"add_user","user":"u","office":"true","token_sha256":"t"
"do":"add_user","user":"u","office":true,"token_sha256":"t","x":1
"do":"set_token","user":"u"
"do":"set_token","user":"u","office":true,"token_sha256":"t"
"do":"set_quota","name":"a","quota":18446744073709551616
"do":"set_quota","name":"a","quota":6.0
"do":"set_quota","name":"a","quota":"6"
"do":"set_quota","name":"a","quota":6,"x":1
"do":"prohibit"
"do":"prohibit","name":true
"do":"allow","name":"a","x":1
"do":"relinquish","name":"a","user":"u"
"do":"add_owner","name":"a"
"do":"add_owner","name":"a","user":"u","x":1
"do":"remove_owner","name":"a","user":null
"do":"remove_owner","name":"a","user":"u","x":1
"do":"upload","file":"f","sha256":"","hex":""
"do":"upload","file":"f","sha256":"","hex":"616","requires_python":""
"do":"upload","file":"f","sha256":"","hex":"6x","requires_python":""
"do":"upload","file":"f","sha256":"","hex":"","requires_python":"","x":1
"do":"delete","name":"a"
"do":"delete","file":1
"do":"delete","file":"f","x":1
"do":"ban_file","name":"a"
"do":"ban_file","file":null
"do":"ban_file","file":"f","x":1
"do":"yank","name":"a","release":"1"
"do":"yank","name":"a","release":1,"reason":""
"do":"yank","name":"a","release":"1","reason":"","x":1
"do":"unyank","name":"a"
"do":"unyank","name":"a","release":"1","reason":""
"do":"open_case","name":"a","kind":"reuse","contact":"c","work":"w"
"do":"open_case","name":"a","kind":"Reuse","contact":"c","work":"w","why":"y"
"do":"open_case","name":"a","kind":1,"contact":"c","work":"w","why":"y"
"do":"open_case","name":"a","kind":"reuse","contact":"c","work":"w","why":"y","x":1
"do":"record_attempt","name":"a","means":"profile"
"do":"record_attempt","name":"a","means":"mail","sent":true
"do":"record_attempt","name":"a","means":"pages","sent":1
"do":"record_attempt","name":"a","means":"pages","sent":true,"x":1
"do":"transfer","name":"a"
"do":"transfer","name":"a","quiet":null
"do":"transfer","name":"a","quiet":true,"x":1
"do":"close_case"
"do":"close_case","name":"a","x":1
"do":"answer_case","name":1
"do":"answer_case","name":"a","x":1"#;

/// Each of these rows, with a moment and a token, is a request, or none is.
fn assert_rows(rt: &(impl Abort + AllocGlobal), rows: &str, are_calls: bool) {
    for members in rows.lines() {
        let line = format!(in rt.alloc(); "{{\"at\":1,\"token\":\"t\",{members}}}");
        let line = line.expect(rt, members);
        assert!(rt; asks(rt, line.as_bytes()) == are_calls, "{members}");
    }
}

#[test]
fn reads_the_keys_of_each_row(rt: HostRuntime) {
    assert_rows(&rt, ROWS, true);
    assert_rows(&rt, NO_ROWS, false);
}

/// Whether this is an upload of the file `f` with the digest of `a`, the bytes `JZ`, 0 and 255, and `é` of Python.
fn is_upload(line: &Option<Line>) -> bool {
    let Some(Line::Call(call)) = line else {
        return false;
    };
    match &call.request {
        Request::Upload {
            file,
            sha256,
            body,
            requires_python,
        } => {
            file.as_slice() == b"f".as_slice()
                && sha256.as_slice() == OF_A.as_bytes()
                && body.as_slice() == b"JZ\x00\xff".as_slice()
                && requires_python.as_slice() == b"\xc3\xa9".as_slice()
        }
        _ => false,
    }
}

const UPLOAD: &str =
    r#"{"at":1,"token":"t","do":"upload","file":"f","sha256":"ca978112ca1bbdcafac231b39a23dc4da786eff8147c4e72b9807785afee48bb","hex":"4a5A00fF","requires_python":"é"}"#;

#[test]
fn an_upload_brings_its_bytes(rt: HostRuntime) {
    let found = read_line(rt.alloc(), UPLOAD.as_bytes()).expect(&rt, UPLOAD);
    let is_upload = is_upload(&found);
    drop(found);
    assert!(rt; is_upload);
}
