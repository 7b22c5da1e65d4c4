//! Deletes, and what is left of a deleted file.
use super::{FILE, FROB, USERS, assert_transcript};

/// A file without bytes is deleted, and its name is bound to no bytes.
const BOUND: &str = r#"
{"at":12,"token":"abc","do":"upload","file":"frob-1.1.tar.gz","sha256":"<>","hex":"","requires_python":""}
= {"answer":"accepted"}
{"do":"standing","name":"frob"}
= {"case":null,"charge":3,"name":"frob","owners":["ann"],"quota":1073741824,"shown":"frob","state":"held"}
{"at":13,"token":"abc","do":"delete","file":"frob-1.1.tar.gz"}
= {"answer":"accepted"}
{"do":"standing","name":"frob"}
= {"case":null,"charge":3,"name":"frob","owners":["ann"],"quota":1073741824,"shown":"frob","state":"held"}
{"at":14,"token":"abc","do":"upload","file":"frob-1.1.tar.gz","sha256":"<a>","hex":"61","requires_python":""}
= {"answer":"refused","code":24,"name":"FileNameTaken"}
"#;

#[test]
fn a_deleted_file_name_stays_bound(rt: HostRuntime) {
    assert_transcript(&rt, &[USERS, FROB, FILE, BOUND]);
}

const COMES_BACK: &str = r#"
{"at":12,"token":"abc","do":"delete","file":"frob-1.0.tar.gz"}
= {"answer":"accepted"}
{"do":"standing","name":"frob"}
= {"case":null,"charge":0,"name":"frob","owners":["ann"],"quota":1073741824,"shown":"frob","state":"held"}
{"at":13,"token":"abc","do":"delete","file":"frob-1.0.tar.gz"}
= {"answer":"already"}
{"at":14,"token":"abc","do":"upload","file":"frob-1.0.tar.gz","sha256":"<a>","hex":"61","requires_python":""}
= {"answer":"refused","code":24,"name":"FileNameTaken"}
{"at":15,"token":"abc","do":"upload","file":"frob-1.0.tar.gz","sha256":"<abc>","hex":"616263","requires_python":""}
= {"answer":"accepted"}
{"do":"standing","name":"frob"}
= {"case":null,"charge":3,"name":"frob","owners":["ann"],"quota":1073741824,"shown":"frob","state":"held"}
{"at":16,"token":"abc","do":"delete","file":"frob-9.tar.gz"}
= {"answer":"refused","code":22,"name":"NoFile"}
"#;

#[test]
fn a_deleted_file_comes_back_with_its_bytes_alone(rt: HostRuntime) {
    assert_transcript(&rt, &[USERS, FROB, FILE, COMES_BACK]);
}

const REFUSED: &str = r#"
{"at":12,"token":"abc","do":"delete","file":"frob-1.0.zip"}
= {"answer":"refused","code":6,"name":"BadFileName"}
{"at":12,"token":"abc","do":"delete","file":"foo-1.0.tar.gz"}
= {"answer":"refused","code":17,"name":"NoProject"}
{"at":12,"token":"hello","do":"delete","file":"frob-1.0.tar.gz"}
= {"answer":"refused","code":18,"name":"NotOwner"}
{"at":12,"token":"hello","do":"delete","file":"frob-9.tar.gz"}
= {"answer":"refused","code":18,"name":"NotOwner"}
{"at":12,"token":"office","do":"delete","file":"frob-1.0.tar.gz"}
= {"answer":"refused","code":18,"name":"NotOwner"}
{"do":"standing","name":"frob"}
= {"case":null,"charge":3,"name":"frob","owners":["ann"],"quota":1073741824,"shown":"frob","state":"held"}
"#;

#[test]
fn deletes_are_refused(rt: HostRuntime) {
    assert_transcript(&rt, &[USERS, FROB, FILE, REFUSED]);
}

/// The files of a name are bound to their bytes for its next owners too.
const RELINQUISHED: &str = r#"
{"at":12,"token":"abc","do":"relinquish","name":"frob"}
= {"answer":"refused","code":21,"name":"FilesRemain"}
{"at":13,"token":"hello","do":"relinquish","name":"frob"}
= {"answer":"refused","code":18,"name":"NotOwner"}
{"at":14,"token":"abc","do":"delete","file":"frob-1.0.tar.gz"}
= {"answer":"accepted"}
{"at":15,"token":"abc","do":"relinquish","name":"frob"}
= {"answer":"accepted"}
{"do":"standing","name":"frob"}
= {"name":"frob","state":"free"}
{"at":16,"token":"abc","do":"relinquish","name":"frob"}
= {"answer":"refused","code":17,"name":"NoProject"}
{"at":17,"token":"hello","do":"claim","name":"frob"}
= {"answer":"accepted"}
{"at":18,"token":"hello","do":"upload","file":"frob-1.0.tar.gz","sha256":"<a>","hex":"61","requires_python":""}
= {"answer":"refused","code":24,"name":"FileNameTaken"}
{"at":19,"token":"hello","do":"upload","file":"frob-1.0.tar.gz","sha256":"<abc>","hex":"616263","requires_python":""}
= {"answer":"accepted"}
{"do":"standing","name":"frob"}
= {"case":null,"charge":3,"name":"frob","owners":["bob"],"quota":1073741824,"shown":"frob","state":"held"}
"#;

#[test]
fn a_relinquished_name_is_free(rt: HostRuntime) {
    assert_transcript(&rt, &[USERS, FROB, FILE, RELINQUISHED]);
}
