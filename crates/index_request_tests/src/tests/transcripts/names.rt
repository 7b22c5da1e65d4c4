//! Claims of names, and each request once.
use super::{USERS, assert_transcript};

const CLAIMS: &str = r#"
{"at":1,"token":"office","do":"add_user","user":"ann","office":false,"token_sha256":"<abc>"}
= {"answer":"accepted"}
{"at":1,"token":"office","do":"add_user","user":"bob","office":false,"token_sha256":"<hello>"}
= {"answer":"accepted"}
{"at":2,"token":"abc","do":"claim","name":"Frob._-Nest"}
= {"answer":"accepted"}
{"at":3,"token":"abc","do":"claim","name":"frob-nest"}
= {"answer":"already"}
{"at":4,"token":"hello","do":"claim","name":"FROB.NEST"}
= {"answer":"refused","code":19,"name":"NameHeld"}
{"do":"standing","name":"frob_nest"}
= {"case":null,"charge":0,"name":"frob-nest","owners":["ann"],"quota":1073741824,"shown":"Frob._-Nest","state":"held"}
"#;

#[test]
fn a_name_stays_with_its_first_claim(rt: HostRuntime) {
    assert_transcript(&rt, &[CLAIMS]);
}

/// Each request is accepted once.
const EACH_REQUEST: &str = r#"
{"at":1,"token":"office","do":"add_user","user":"carol","office":true,"token_sha256":"<a>"}
= {"answer":"accepted"}
{"at":2,"token":"office","do":"set_token","user":"carol","token_sha256":"<abd>"}
= {"answer":"accepted"}
{"at":3,"token":"abc","do":"claim","name":"frob"}
= {"answer":"accepted"}
{"at":4,"token":"office","do":"set_quota","name":"frob","quota":3}
= {"answer":"accepted"}
{"at":5,"token":"abc","do":"add_owner","name":"frob","user":"bob"}
= {"answer":"accepted"}
{"at":6,"token":"hello","do":"upload","file":"frob-1.0.tar.gz","sha256":"<abc>","hex":"616263","requires_python":""}
= {"answer":"accepted"}
{"at":7,"token":"hello","do":"yank","name":"frob","release":"1.0","reason":"broken"}
= {"answer":"accepted"}
{"at":8,"token":"abc","do":"unyank","name":"frob","release":"1.0"}
= {"answer":"accepted"}
{"at":9,"token":"abc","do":"delete","file":"frob-1.0.tar.gz"}
= {"answer":"accepted"}
{"at":10,"token":"abc","do":"remove_owner","name":"frob","user":"ann"}
= {"answer":"accepted"}
{"at":11,"token":"hello","do":"relinquish","name":"frob"}
= {"answer":"accepted"}
{"at":12,"token":"office","do":"prohibit","name":"frob"}
= {"answer":"accepted"}
{"at":13,"token":"office","do":"allow","name":"frob"}
= {"answer":"accepted"}
{"at":14,"token":"hello","do":"claim","name":"frob"}
= {"answer":"accepted"}
{"at":15,"token":"abc","do":"open_case","name":"frob","kind":"reuse","contact":"mail","work":"shop","why":"mark"}
= {"answer":"accepted"}
{"at":16,"token":"hello","do":"answer_case","name":"frob"}
= {"answer":"accepted"}
{"at":17,"token":"abc","do":"open_case","name":"frob","kind":"reuse","contact":"mail","work":"shop","why":"mark"}
= {"answer":"accepted"}
{"at":18,"token":"abc","do":"close_case","name":"frob"}
= {"answer":"accepted"}
{"at":19,"token":"abc","do":"open_case","name":"frob","kind":"reuse","contact":"mail","work":"shop","why":"mark"}
= {"answer":"accepted"}
{"at":20,"token":"office","do":"record_attempt","name":"frob","means":"profile","sent":true}
= {"answer":"accepted"}
{"at":20,"token":"office","do":"record_attempt","name":"frob","means":"author","sent":true}
= {"answer":"accepted"}
{"at":20,"token":"office","do":"record_attempt","name":"frob","means":"pages","sent":true}
= {"answer":"accepted"}
{"at":3628820,"token":"office","do":"transfer","name":"frob","quiet":true}
= {"answer":"accepted"}
{"do":"standing","name":"frob"}
= {"case":null,"charge":0,"name":"frob","owners":["ann"],"quota":1073741824,"shown":"frob","state":"held"}
"#;

#[test]
fn books_do_not_give_up(rt: HostRuntime) {
    assert_transcript(&rt, &[USERS, EACH_REQUEST]);
}
