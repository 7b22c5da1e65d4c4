//! Prohibited names.
use super::{FILE, FROB, USERS, assert_transcript};

/// The files of a prohibited name are deleted, and stay bound to their bytes when the name is allowed and claimed
/// again.
const LOST_FILES: &str = r#"
{"at":12,"token":"abc","do":"upload","file":"frob-1.1.tar.gz","sha256":"<a>","hex":"61","requires_python":""}
= {"answer":"accepted"}
{"do":"standing","name":"frob"}
= {"case":null,"charge":4,"name":"frob","owners":["ann"],"quota":1073741824,"shown":"frob","state":"held"}
{"at":13,"token":"abc","do":"yank","name":"frob","release":"1.0","reason":""}
= {"answer":"accepted"}
{"at":14,"token":"office","do":"prohibit","name":"frob"}
= {"answer":"accepted"}
{"do":"standing","name":"frob"}
= {"name":"frob","state":"prohibited"}
{"at":15,"token":"hello","do":"claim","name":"frob"}
= {"answer":"refused","code":16,"name":"NameProhibited"}
{"at":16,"token":"office","do":"allow","name":"frob"}
= {"answer":"accepted"}
{"at":17,"token":"hello","do":"claim","name":"frob"}
= {"answer":"accepted"}
{"do":"standing","name":"frob"}
= {"case":null,"charge":0,"name":"frob","owners":["bob"],"quota":1073741824,"shown":"frob","state":"held"}
{"at":18,"token":"hello","do":"upload","file":"frob-1.0.tar.gz","sha256":"<abc>","hex":"616263","requires_python":""}
= {"answer":"accepted"}
{"at":19,"token":"hello","do":"unyank","name":"frob","release":"1.0"}
= {"answer":"already"}
{"at":20,"token":"hello","do":"upload","file":"frob-1.1.tar.gz","sha256":"<abc>","hex":"616263","requires_python":""}
= {"answer":"refused","code":24,"name":"FileNameTaken"}
{"do":"standing","name":"frob"}
= {"case":null,"charge":3,"name":"frob","owners":["bob"],"quota":1073741824,"shown":"frob","state":"held"}
"#;

#[test]
fn a_prohibited_name_loses_its_files(rt: HostRuntime) {
    assert_transcript(&rt, &[USERS, FROB, FILE, LOST_FILES]);
}

const FREE_NAME: &str = r#"
{"at":10,"token":"abc","do":"prohibit","name":"spam"}
= {"answer":"refused","code":3,"name":"NotOffice"}
{"at":11,"token":"office","do":"prohibit","name":"-spam"}
= {"answer":"refused","code":5,"name":"BadName"}
{"at":12,"token":"office","do":"prohibit","name":"spam"}
= {"answer":"accepted"}
{"at":13,"token":"office","do":"prohibit","name":"Spam"}
= {"answer":"already"}
{"do":"standing","name":"spam"}
= {"name":"spam","state":"prohibited"}
{"at":14,"token":"abc","do":"claim","name":"spam"}
= {"answer":"refused","code":16,"name":"NameProhibited"}
{"at":15,"token":"abc","do":"allow","name":"spam"}
= {"answer":"refused","code":3,"name":"NotOffice"}
"#;

#[test]
fn a_free_name_is_prohibited(rt: HostRuntime) {
    assert_transcript(&rt, &[USERS, FREE_NAME]);
}

const HELD_NAME: &str = r#"
{"do":"standing","name":"frob"}
= {"case":null,"charge":3,"name":"frob","owners":["ann"],"quota":1073741824,"shown":"frob","state":"held"}
{"at":12,"token":"office","do":"allow","name":"frob"}
= {"answer":"already"}
{"do":"standing","name":"frob"}
= {"case":null,"charge":3,"name":"frob","owners":["ann"],"quota":1073741824,"shown":"frob","state":"held"}
"#;

#[test]
fn a_held_name_is_allowed_already(rt: HostRuntime) {
    assert_transcript(&rt, &[USERS, FROB, FILE, HELD_NAME]);
}
