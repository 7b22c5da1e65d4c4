//! Owners of names.
use super::{FROB, USERS, assert_transcript};

/// The office does not own a name by being the office.
const STRANGERS: &str = r#"
{"at":10,"token":"abc","do":"remove_owner","name":"frob","user":"ann"}
= {"answer":"refused","code":20,"name":"LastOwner"}
{"at":10,"token":"abc","do":"remove_owner","name":"frob","user":"bob"}
= {"answer":"already"}
{"at":10,"token":"abc","do":"remove_owner","name":"frob","user":"zed"}
= {"answer":"refused","code":13,"name":"NoUser"}
{"at":10,"token":"abc","do":"add_owner","name":"frob","user":"zed"}
= {"answer":"refused","code":13,"name":"NoUser"}
{"at":10,"token":"abc","do":"add_owner","name":"frob","user":"Bob"}
= {"answer":"refused","code":4,"name":"BadUser"}
{"at":10,"token":"abc","do":"add_owner","name":"-frob","user":"bob"}
= {"answer":"refused","code":5,"name":"BadName"}
{"at":10,"token":"abc","do":"add_owner","name":"frob-nest","user":"bob"}
= {"answer":"refused","code":17,"name":"NoProject"}
{"at":10,"token":"hello","do":"add_owner","name":"frob","user":"bob"}
= {"answer":"refused","code":18,"name":"NotOwner"}
{"at":10,"token":"office","do":"remove_owner","name":"frob","user":"ann"}
= {"answer":"refused","code":18,"name":"NotOwner"}
"#;

#[test]
fn owners_alone_add_and_remove_owners(rt: HostRuntime) {
    assert_transcript(&rt, &[USERS, FROB, STRANGERS]);
}

const HANDED_ON: &str = r#"
{"at":10,"token":"abc","do":"add_owner","name":"FROB","user":"bob"}
= {"answer":"accepted"}
{"at":10,"token":"hello","do":"add_owner","name":"frob","user":"ann"}
= {"answer":"already"}
{"at":10,"token":"abc","do":"remove_owner","name":"frob","user":"ann"}
= {"answer":"accepted"}
{"at":10,"token":"hello","do":"remove_owner","name":"frob","user":"bob"}
= {"answer":"refused","code":20,"name":"LastOwner"}
{"do":"standing","name":"frob"}
= {"case":null,"charge":0,"name":"frob","owners":["bob"],"quota":1073741824,"shown":"frob","state":"held"}
{"at":11,"token":"abc","do":"upload","file":"frob-1.0.tar.gz","sha256":"<abc>","hex":"616263","requires_python":""}
= {"answer":"refused","code":18,"name":"NotOwner"}
"#;

#[test]
fn an_owner_hands_a_name_on(rt: HostRuntime) {
    assert_transcript(&rt, &[USERS, FROB, HANDED_ON]);
}

const BYTE_ORDER: &str = r#"
{"at":1,"token":"office","do":"add_user","user":"an","office":false,"token_sha256":"<a>"}
= {"answer":"accepted"}
{"at":10,"token":"abc","do":"add_owner","name":"frob","user":"bob"}
= {"answer":"accepted"}
{"at":10,"token":"abc","do":"add_owner","name":"frob","user":"an"}
= {"answer":"accepted"}
{"do":"standing","name":"frob"}
= {"case":null,"charge":0,"name":"frob","owners":["an","ann","bob"],"quota":1073741824,"shown":"frob","state":"held"}
"#;

#[test]
fn owners_stand_in_byte_order(rt: HostRuntime) {
    assert_transcript(&rt, &[USERS, FROB, BYTE_ORDER]);
}

/// The two requests that are not already so when their caller repeats them: he has lost the right to ask.
const GIVEN_UP: &str = r#"
{"at":10,"token":"abc","do":"add_owner","name":"frob","user":"bob"}
= {"answer":"accepted"}
{"at":11,"token":"abc","do":"remove_owner","name":"frob","user":"ann"}
= {"answer":"accepted"}
{"at":12,"token":"abc","do":"remove_owner","name":"frob","user":"ann"}
= {"answer":"refused","code":18,"name":"NotOwner"}
{"at":13,"token":"office","do":"set_token","user":"office","token_sha256":"<a>"}
= {"answer":"accepted"}
{"at":14,"token":"office","do":"set_token","user":"office","token_sha256":"<a>"}
= {"answer":"refused","code":2,"name":"BadToken"}
{"at":15,"token":"a","do":"set_token","user":"office","token_sha256":"<a>"}
= {"answer":"already"}
"#;

#[test]
fn a_right_that_was_given_up_is_not_there_to_repeat_it(rt: HostRuntime) {
    assert_transcript(&rt, &[USERS, FROB, GIVEN_UP]);
}
