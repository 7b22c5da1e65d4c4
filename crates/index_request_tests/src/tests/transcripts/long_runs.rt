//! Many requests in a row.
use super::{CASE, FROB, USERS, assert_transcript, repeated};
use std::alloc::AllocGlobal;
use std::process::Abort;

const ATTEMPT: &str = r#"
{"at":40000000,"token":"office","do":"record_attempt","name":"frob","means":"profile","sent":true}
= {"answer":"accepted"}
"#;

const ATTEMPT_TOO_MANY: &str = r#"
{"at":40000000,"token":"office","do":"record_attempt","name":"frob","means":"profile","sent":true}
= {"answer":"refused","code":31,"name":"AttemptsFull"}
"#;

#[test]
fn a_case_has_at_most_a_thousand_attempts(rt: HostRuntime) {
    let attempts = repeated(&rt, ATTEMPT, 1_000);
    let texts = [USERS, FROB, CASE, attempts.as_str(), ATTEMPT_TOO_MANY];
    assert_transcript(&rt, &texts);
}

/// What is asked of a file, with the keys that follow it, asked of `frob-0.tar.gz` to `frob-299.tar.gz`.
fn of_each_file(rt: &(impl Abort + AllocGlobal), word: &str, keys: &str, answer: &str) -> String {
    let mut text = String::new(rt.alloc());
    for number in 0..300 {
        writeln!(
            text,
            "{{\"at\":11,\"token\":\"abc\",\"do\":\"{word}\",\"file\":\"frob-{number}.tar.gz\"{keys}}}\n= {{\"answer\":\"{answer}\"}}"
        )
        .expect(rt, word);
    }
    text
}

/// The keys of an upload of the bytes `abc`, after its file.
const UPLOAD: &str = r#","sha256":"<abc>","hex":"616263","requires_python":"""#;

/// The project is charged three bytes for each file.
const CHARGED: &str = r#"
{"do":"standing","name":"frob"}
= {"case":null,"charge":900,"name":"frob","owners":["ann"],"quota":1073741824,"shown":"frob","state":"held"}
"#;

const UNCHARGED: &str = r#"
{"do":"standing","name":"frob"}
= {"case":null,"charge":0,"name":"frob","owners":["ann"],"quota":1073741824,"shown":"frob","state":"held"}
"#;

/// A call is answered by the rules, however many came before it: twice uploads that are accepted, the same ones again,
/// and deletes, of 300 files.
#[test]
fn no_call_gives_up_without_a_cause(rt: HostRuntime) {
    let uploads = of_each_file(&rt, "upload", UPLOAD, "accepted");
    let again = of_each_file(&rt, "upload", UPLOAD, "already");
    let deletes = of_each_file(&rt, "delete", "", "accepted");
    let (uploads, again, deletes) = (uploads.as_str(), again.as_str(), deletes.as_str());
    let texts = [
        USERS, FROB, uploads, again, CHARGED, deletes, UNCHARGED, uploads, again, CHARGED, deletes,
        UNCHARGED,
    ];
    assert_transcript(&rt, &texts);
}
