//! Uploads.
use super::{FILE, FROB, USERS, assert_transcript, repeated};
use std::alloc::AllocGlobal;
use std::process::Abort;

/// What is declared of a file. If several refusals apply, the one with the least number is answered.
const DECLARED: &str = r#"
# The declared digest is compared with the bytes, and not kept as it was declared.
{"at":11,"token":"abc","do":"upload","file":"frob-1.0.tar.gz","sha256":"<>","hex":"616263","requires_python":""}
= {"answer":"refused","code":11,"name":"DigestMismatch"}
{"at":11,"token":"abc","do":"upload","file":"frob-1.0.tar.gz","sha256":"BA7816BF8F01CFEA414140DE5DAE2223B00361A396177A9CB410FF61F20015AD","hex":"616263","requires_python":""}
= {"answer":"refused","code":9,"name":"BadDigest"}
{"at":11,"token":"abc","do":"upload","file":"frob-1.0.zip","sha256":"<abc>","hex":"616263","requires_python":""}
= {"answer":"refused","code":6,"name":"BadFileName"}
{"at":11,"token":"abc","do":"upload","file":"foo-1.0.zip","sha256":"","hex":"616263","requires_python":""}
= {"answer":"refused","code":6,"name":"BadFileName"}
{"at":11,"token":"hello","do":"upload","file":"frob-1.0.tar.gz","sha256":"<>","hex":"616263","requires_python":""}
= {"answer":"refused","code":11,"name":"DigestMismatch"}
{"at":11,"token":"abc","do":"upload","file":"frob-1.0.tar.gz","sha256":"<abc>","hex":"616263","requires_python":""}
= {"answer":"accepted"}
{"do":"standing","name":"frob"}
= {"case":null,"charge":3,"name":"frob","owners":["ann"],"quota":1073741824,"shown":"frob","state":"held"}
"#;

#[test]
fn a_first_upload_is_as_declared(rt: HostRuntime) {
    assert_transcript(&rt, &[USERS, FROB, DECLARED]);
}

/// The office does not own a name by being the office.
const STRANGERS: &str = r#"
{"at":11,"token":"x","do":"upload","file":"frob-1.0.tar.gz","sha256":"<abc>","hex":"616263","requires_python":""}
= {"answer":"refused","code":2,"name":"BadToken"}
{"at":11,"token":"hello","do":"upload","file":"frob-1.0.tar.gz","sha256":"<abc>","hex":"616263","requires_python":""}
= {"answer":"refused","code":18,"name":"NotOwner"}
{"at":11,"token":"office","do":"upload","file":"frob-1.0.tar.gz","sha256":"<abc>","hex":"616263","requires_python":""}
= {"answer":"refused","code":18,"name":"NotOwner"}
{"at":11,"token":"abc","do":"upload","file":"foo-1.0.tar.gz","sha256":"<abc>","hex":"616263","requires_python":""}
= {"answer":"refused","code":17,"name":"NoProject"}
{"at":11,"token":"abc","do":"upload","file":"frob-1.0.tar.gz","sha256":"<abc>","hex":"616263","requires_python":""}
= {"answer":"accepted"}
{"at":11,"token":"hello","do":"upload","file":"frob-1.0.tar.gz","sha256":"<abc>","hex":"616263","requires_python":""}
= {"answer":"refused","code":18,"name":"NotOwner"}
{"do":"standing","name":"frob"}
= {"case":null,"charge":3,"name":"frob","owners":["ann"],"quota":1073741824,"shown":"frob","state":"held"}
"#;

#[test]
fn owners_alone_upload(rt: HostRuntime) {
    assert_transcript(&rt, &[USERS, FROB, STRANGERS]);
}

/// Uploads of a file that is there.
const BOUND: &str = r#"
{"at":11,"token":"abc","do":"upload","file":"frob-1.0.tar.gz","sha256":"<abc>","hex":"616263","requires_python":""}
= {"answer":"already"}
{"do":"standing","name":"frob"}
= {"case":null,"charge":3,"name":"frob","owners":["ann"],"quota":1073741824,"shown":"frob","state":"held"}
# A repeated upload changes nothing, whatever it says of Python.
{"at":11,"token":"abc","do":"upload","file":"frob-1.0.tar.gz","sha256":"<abc>","hex":"616263","requires_python":">=3.8"}
= {"answer":"already"}
{"do":"standing","name":"frob"}
= {"case":null,"charge":3,"name":"frob","owners":["ann"],"quota":1073741824,"shown":"frob","state":"held"}
{"at":11,"token":"abc","do":"upload","file":"frob-1.0.tar.gz","sha256":"<>","hex":"","requires_python":""}
= {"answer":"refused","code":24,"name":"FileNameTaken"}
{"do":"standing","name":"frob"}
= {"case":null,"charge":3,"name":"frob","owners":["ann"],"quota":1073741824,"shown":"frob","state":"held"}
# Bytes of another digest and the size of the first ones.
{"at":11,"token":"abc","do":"upload","file":"frob-1.0.tar.gz","sha256":"<abd>","hex":"616264","requires_python":""}
= {"answer":"refused","code":24,"name":"FileNameTaken"}
{"do":"standing","name":"frob"}
= {"case":null,"charge":3,"name":"frob","owners":["ann"],"quota":1073741824,"shown":"frob","state":"held"}
"#;

#[test]
fn a_file_name_is_bound_to_its_bytes(rt: HostRuntime) {
    assert_transcript(&rt, &[USERS, FROB, FILE, BOUND]);
}

const CHARGED: &str = r#"
# Another spelling of the project, and so another file.
{"at":11,"token":"abc","do":"upload","file":"FROB-1.0.tar.gz","sha256":"<hello>","hex":"68656C6C6F","requires_python":""}
= {"answer":"accepted"}
{"do":"standing","name":"frob"}
= {"case":null,"charge":8,"name":"frob","owners":["ann"],"quota":1073741824,"shown":"frob","state":"held"}
{"at":11,"token":"abc","do":"upload","file":"frob-1.0-py3-none-any.whl","sha256":"<a>","hex":"61","requires_python":""}
= {"answer":"accepted"}
{"do":"standing","name":"frob"}
= {"case":null,"charge":9,"name":"frob","owners":["ann"],"quota":1073741824,"shown":"frob","state":"held"}
"#;

#[test]
fn each_file_is_charged(rt: HostRuntime) {
    assert_transcript(&rt, &[USERS, FROB, FILE, CHARGED]);
}

const HEX_DIGITS: &str = r#"
# The digest is that of the bytes J and Z.
{"at":11,"token":"abc","do":"upload","file":"frob-1.0.tar.gz","sha256":"<JZ>","hex":"616","requires_python":""}
= {"answer":"message","name":"BadBody"}
{"at":11,"token":"abc","do":"upload","file":"frob-1.0.tar.gz","sha256":"<JZ>","hex":"61626g","requires_python":""}
= {"answer":"message","name":"BadBody"}
{"at":11,"token":"abc","do":"upload","file":"frob-1.0.tar.gz","sha256":"<JZ>","hex":"4A5a","requires_python":""}
= {"answer":"accepted"}
{"at":11,"token":"abc","do":"upload","file":"frob-1.0.tar.gz","sha256":"<JZ>","hex":"4a5A","requires_python":""}
= {"answer":"already"}
"#;

#[test]
fn bytes_are_hex_digits_of_either_case(rt: HostRuntime) {
    assert_transcript(&rt, &[USERS, FROB, HEX_DIGITS]);
}

/// Control characters, and characters beside them, as JSON writes them.
const PLAIN_TEXTS: &str = r#"
{"at":11,"token":"abc","do":"upload","file":"frob-1.0.tar.gz","sha256":"<abc>","hex":"616263","requires_python":"\u0000"}
= {"answer":"refused","code":8,"name":"BadText"}
{"at":11,"token":"abc","do":"upload","file":"frob-1.0.tar.gz","sha256":"<abc>","hex":"616263","requires_python":">=3\n"}
= {"answer":"refused","code":8,"name":"BadText"}
{"at":11,"token":"abc","do":"upload","file":"frob-1.0.tar.gz","sha256":"<abc>","hex":"616263","requires_python":"\u001f"}
= {"answer":"refused","code":8,"name":"BadText"}
{"at":11,"token":"abc","do":"upload","file":"frob-1.0.tar.gz","sha256":"<abc>","hex":"616263","requires_python":"\u007f"}
= {"answer":"refused","code":8,"name":"BadText"}
{"at":11,"token":"abc","do":"upload","file":"frob-1.0.tar.gz","sha256":"<abc>","hex":"616263","requires_python":"\u009f"}
= {"answer":"refused","code":8,"name":"BadText"}
{"at":11,"token":"abc","do":"upload","file":"frob-1.0.tar.gz","sha256":"<abc>","hex":"616263","requires_python":"\u0020\u007e\u00a0"}
= {"answer":"accepted"}
"#;

#[test]
fn a_requires_text_has_no_controls(rt: HostRuntime) {
    assert_transcript(&rt, &[USERS, FROB, PLAIN_TEXTS]);
}

/// The upload of a file whose requirement on Python is a text this many times, and its answer.
fn with_requires_python(
    rt: &(impl Abort + AllocGlobal),
    text: &str,
    times: u64,
    answer: &str,
) -> String {
    let text = repeated(rt, text, times);
    let line = format!(in rt.alloc();
        "{{\"at\":11,\"token\":\"abc\",\"do\":\"upload\",\"file\":\"frob-1.0.tar.gz\",\"sha256\":\"<abc>\",\"hex\":\"616263\",\"requires_python\":\"{text}\"}}\n= {answer}\n"
    );
    line.expect(rt, answer)
}

const ACCEPTED: &str = r#"{"answer":"accepted"}"#;

const BAD_TEXT: &str = r#"{"answer":"refused","code":8,"name":"BadText"}"#;

/// A requirement on Python has at most 512 bytes.
#[test]
fn a_requires_text_is_short(rt: HostRuntime) {
    for (text, times, answer) in [
        (">", 0, ACCEPTED),
        (">", 512, ACCEPTED),
        (">", 513, BAD_TEXT),
        ("é", 257, BAD_TEXT),
    ] {
        let text = with_requires_python(&rt, text, times, answer);
        assert_transcript(&rt, &[USERS, FROB, text.as_str()]);
    }
}
