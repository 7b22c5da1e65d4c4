//! Bans of files.
use super::{CASE, FILE, FROB, USERS, assert_transcript};

/// The office bans the file.
const BAN: &str = r#"
{"at":20,"token":"office","do":"ban_file","file":"frob-1.0.tar.gz"}
= {"answer":"accepted"}
"#;

const FOR_GOOD: &str = r#"
{"do":"standing","name":"frob"}
= {"case":null,"charge":0,"name":"frob","owners":["ann"],"quota":1073741824,"shown":"frob","state":"held"}
{"at":21,"token":"office","do":"ban_file","file":"frob-1.0.tar.gz"}
= {"answer":"already"}
{"at":22,"token":"abc","do":"upload","file":"frob-1.0.tar.gz","sha256":"<abc>","hex":"616263","requires_python":""}
= {"answer":"refused","code":25,"name":"FileBanned"}
{"at":23,"token":"abc","do":"upload","file":"frob-1.0.tar.gz","sha256":"<a>","hex":"61","requires_python":""}
= {"answer":"refused","code":24,"name":"FileNameTaken"}
{"at":24,"token":"abc","do":"delete","file":"frob-1.0.tar.gz"}
= {"answer":"already"}
# The other files of the project may come.
{"at":25,"token":"abc","do":"upload","file":"frob-1.1.tar.gz","sha256":"<abc>","hex":"616263","requires_python":""}
= {"answer":"accepted"}
{"do":"standing","name":"frob"}
= {"case":null,"charge":3,"name":"frob","owners":["ann"],"quota":1073741824,"shown":"frob","state":"held"}
"#;

#[test]
fn a_banned_file_does_not_come_back(rt: HostRuntime) {
    assert_transcript(&rt, &[USERS, FROB, FILE, BAN, FOR_GOOD]);
}

/// A ban outlasts the name's owners, and its quota.
const NEXT_OWNER: &str = r#"
{"at":21,"token":"abc","do":"relinquish","name":"frob"}
= {"answer":"accepted"}
{"at":22,"token":"hello","do":"claim","name":"frob"}
= {"answer":"accepted"}
{"at":23,"token":"hello","do":"upload","file":"frob-1.0.tar.gz","sha256":"<abc>","hex":"616263","requires_python":""}
= {"answer":"refused","code":25,"name":"FileBanned"}
{"at":24,"token":"office","do":"set_quota","name":"frob","quota":0}
= {"answer":"accepted"}
# Of the two that apply the least is answered.
{"at":25,"token":"hello","do":"upload","file":"frob-1.0.tar.gz","sha256":"<abc>","hex":"616263","requires_python":""}
= {"answer":"refused","code":25,"name":"FileBanned"}
"#;

#[test]
fn a_ban_outlasts_the_owners(rt: HostRuntime) {
    assert_transcript(&rt, &[USERS, FROB, FILE, BAN, NEXT_OWNER]);
}

const REFUSED: &str = r#"
{"at":20,"token":"office","do":"ban_file","file":"frob-9.tar.gz"}
= {"answer":"refused","code":22,"name":"NoFile"}
{"at":21,"token":"office","do":"ban_file","file":"frob.zip"}
= {"answer":"refused","code":6,"name":"BadFileName"}
{"at":22,"token":"abc","do":"ban_file","file":"frob-1.0.tar.gz"}
= {"answer":"refused","code":3,"name":"NotOffice"}
{"at":23,"token":"abc","do":"ban_file","file":"frob.zip"}
= {"answer":"refused","code":3,"name":"NotOffice"}
{"do":"standing","name":"frob"}
= {"case":null,"charge":3,"name":"frob","owners":["ann"],"quota":1073741824,"shown":"frob","state":"held"}
"#;

#[test]
fn bans_are_refused(rt: HostRuntime) {
    assert_transcript(&rt, &[USERS, FROB, FILE, REFUSED]);
}

const PROHIBITED: &str = r#"
{"at":12,"token":"office","do":"prohibit","name":"frob"}
= {"answer":"accepted"}
{"at":13,"token":"office","do":"ban_file","file":"frob-1.0.tar.gz"}
= {"answer":"accepted"}
{"at":14,"token":"office","do":"ban_file","file":"frob-1.0.tar.gz"}
= {"answer":"already"}
{"do":"standing","name":"frob"}
= {"name":"frob","state":"prohibited"}
{"at":15,"token":"office","do":"allow","name":"frob"}
= {"answer":"accepted"}
{"at":16,"token":"hello","do":"claim","name":"frob"}
= {"answer":"accepted"}
{"at":17,"token":"hello","do":"upload","file":"frob-1.0.tar.gz","sha256":"<abc>","hex":"616263","requires_python":""}
= {"answer":"refused","code":25,"name":"FileBanned"}
"#;

#[test]
fn a_file_of_a_prohibited_name_is_banned(rt: HostRuntime) {
    assert_transcript(&rt, &[USERS, FROB, FILE, PROHIBITED]);
}

const FREE_NAME: &str = r#"
{"at":12,"token":"abc","do":"delete","file":"frob-1.0.tar.gz"}
= {"answer":"accepted"}
{"at":13,"token":"abc","do":"relinquish","name":"frob"}
= {"answer":"accepted"}
{"at":14,"token":"office","do":"ban_file","file":"frob-1.0.tar.gz"}
= {"answer":"accepted"}
{"do":"standing","name":"frob"}
= {"name":"frob","state":"free"}
"#;

#[test]
fn a_file_of_a_free_name_is_banned(rt: HostRuntime) {
    assert_transcript(&rt, &[USERS, FROB, FILE, FREE_NAME]);
}

/// A ban is not a request of an owner, and ends no case.
const STILL_OPEN: &str = r#"
{"at":40000000,"token":"office","do":"ban_file","file":"frob-1.0.tar.gz"}
= {"answer":"accepted"}
{"do":"standing","name":"frob"}
= {"case":{"attempts":0,"author":false,"candidate":"bob","contact":"mail","first":null,"kind":"continue","opened":39999999,"pages":false,"profile":false,"sent":0,"why":"used","work":"fork"},"charge":0,"name":"frob","owners":["ann"],"quota":1073741824,"shown":"frob","state":"held"}
"#;

#[test]
fn a_ban_leaves_the_case(rt: HostRuntime) {
    assert_transcript(&rt, &[USERS, FROB, CASE, STILL_OPEN]);
}
