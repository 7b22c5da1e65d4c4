//! Users, their tokens, and the moment of a call.
use super::{USERS, assert_transcript};

/// A user, and a token that somebody bears, are added once.
const ADDED_TWICE: &str = r#"
{"at":1,"token":"office","do":"add_user","user":"ann","office":false,"token_sha256":"<abc>"}
= {"answer":"already"}
{"at":1,"token":"office","do":"add_user","user":"ann","office":true,"token_sha256":"<abc>"}
= {"answer":"refused","code":14,"name":"UserExists"}
{"at":1,"token":"office","do":"add_user","user":"ann","office":false,"token_sha256":"<a>"}
= {"answer":"refused","code":14,"name":"UserExists"}
{"at":1,"token":"office","do":"add_user","user":"ann","office":false,"token_sha256":"<hello>"}
= {"answer":"refused","code":14,"name":"UserExists"}
{"at":1,"token":"office","do":"add_user","user":"carol","office":false,"token_sha256":"<abc>"}
= {"answer":"refused","code":15,"name":"TokenTaken"}
{"at":1,"token":"office","do":"add_user","user":"carol","office":true,"token_sha256":"<a>"}
= {"answer":"accepted"}
{"at":1,"token":"a","do":"add_user","user":"dan","office":false,"token_sha256":"<hello>"}
= {"answer":"refused","code":15,"name":"TokenTaken"}
"#;

#[test]
fn users_are_added_once(rt: HostRuntime) {
    assert_transcript(&rt, &[USERS, ADDED_TWICE]);
}

const ADDED: &str = r#"
{"at":1,"token":"office","do":"add_user","user":"carol","office":false,"token_sha256":"<>"}
= {"answer":"refused","code":9,"name":"BadDigest"}
{"at":1,"token":"office","do":"add_user","user":"carol","office":false,"token_sha256":"616263"}
= {"answer":"refused","code":9,"name":"BadDigest"}
{"at":1,"token":"abc","do":"add_user","user":"carol","office":false,"token_sha256":"<a>"}
= {"answer":"refused","code":3,"name":"NotOffice"}
{"at":1,"token":"a","do":"add_user","user":"carol","office":false,"token_sha256":"<a>"}
= {"answer":"refused","code":2,"name":"BadToken"}
{"at":1,"token":"office","do":"add_user","user":"Ann","office":false,"token_sha256":"<a>"}
= {"answer":"refused","code":4,"name":"BadUser"}
# Of several refusals the one with the least number is answered.
{"at":1,"token":"office","do":"add_user","user":"Ann","office":false,"token_sha256":"<>"}
= {"answer":"refused","code":4,"name":"BadUser"}
{"at":1,"token":"abc","do":"add_user","user":"Ann","office":false,"token_sha256":"<>"}
= {"answer":"refused","code":3,"name":"NotOffice"}
{"at":1,"token":"office","do":"add_user","user":"carol","office":false,"token_sha256":"<a>"}
= {"answer":"accepted"}
"#;

#[test]
fn the_office_adds_users(rt: HostRuntime) {
    assert_transcript(&rt, &[USERS, ADDED]);
}

const TOKENS: &str = r#"
{"at":1,"token":"office","do":"set_token","user":"zed","token_sha256":"<a>"}
= {"answer":"refused","code":13,"name":"NoUser"}
{"at":1,"token":"office","do":"set_token","user":"ann","token_sha256":"<hello>"}
= {"answer":"refused","code":15,"name":"TokenTaken"}
{"at":1,"token":"office","do":"set_token","user":"ann","token_sha256":"<abc>"}
= {"answer":"already"}
{"at":1,"token":"office","do":"set_token","user":"ann","token_sha256":"<>"}
= {"answer":"refused","code":9,"name":"BadDigest"}
{"at":1,"token":"office","do":"set_token","user":"Ann","token_sha256":"<a>"}
= {"answer":"refused","code":4,"name":"BadUser"}
{"at":1,"token":"abc","do":"set_token","user":"ann","token_sha256":"<a>"}
= {"answer":"refused","code":3,"name":"NotOffice"}
{"at":1,"token":"office","do":"set_token","user":"ann","token_sha256":"<a>"}
= {"answer":"accepted"}
# The old token is no one's, and the new one is hers.
{"at":1,"token":"abc","do":"set_token","user":"ann","token_sha256":"<abc>"}
= {"answer":"refused","code":2,"name":"BadToken"}
{"at":1,"token":"a","do":"set_token","user":"ann","token_sha256":"<abc>"}
= {"answer":"refused","code":3,"name":"NotOffice"}
"#;

#[test]
fn the_office_replaces_tokens(rt: HostRuntime) {
    assert_transcript(&rt, &[USERS, TOKENS]);
}

/// The last moment is the last second of the year 9999.
const MOMENTS: &str = r#"
{"at":253402300799,"token":"office","do":"claim","name":"x"}
= {"answer":"accepted"}
{"at":253402300800,"token":"office","do":"claim","name":"x"}
= {"answer":"refused","code":1,"name":"BadMoment"}
{"at":253402300800,"token":"-","do":"claim","name":"x"}
= {"answer":"refused","code":1,"name":"BadMoment"}
{"at":5,"token":"-","do":"claim","name":"x"}
= {"answer":"refused","code":2,"name":"BadToken"}
{"at":5,"token":"","do":"claim","name":"x"}
= {"answer":"refused","code":2,"name":"BadToken"}
# Moments may go backwards.
{"at":0,"token":"office","do":"claim","name":"x"}
= {"answer":"already"}
"#;

#[test]
fn the_moment_comes_before_the_token(rt: HostRuntime) {
    assert_transcript(&rt, &[MOMENTS]);
}
