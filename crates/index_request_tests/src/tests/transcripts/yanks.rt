//! Yanked releases.
use super::{FILE, FROB, USERS, assert_transcript};

const REASONS: &str = r#"
{"at":12,"token":"abc","do":"yank","name":"frob","release":"1.0","reason":"<3 & \"x\""}
= {"answer":"accepted"}
{"at":13,"token":"abc","do":"yank","name":"frob","release":"1.0","reason":"<3 & \"x\""}
= {"answer":"already"}
{"at":14,"token":"abc","do":"yank","name":"frob","release":"1.0","reason":""}
= {"answer":"accepted"}
{"at":15,"token":"abc","do":"yank","name":"frob","release":"1.0","reason":""}
= {"answer":"already"}
{"at":16,"token":"abc","do":"upload","file":"frob-1.0-py3-none-any.whl","sha256":"<a>","hex":"61","requires_python":""}
= {"answer":"accepted"}
{"at":17,"token":"abc","do":"unyank","name":"frob","release":"1.0"}
= {"answer":"accepted"}
{"at":18,"token":"abc","do":"unyank","name":"frob","release":"1.0"}
= {"answer":"already"}
{"at":19,"token":"abc","do":"unyank","name":"frob","release":"7"}
= {"answer":"refused","code":23,"name":"NoRelease"}
"#;

#[test]
fn a_release_is_yanked_for_a_reason(rt: HostRuntime) {
    assert_transcript(&rt, &[USERS, FROB, FILE, REASONS]);
}

const REFUSED: &str = r#"
{"at":12,"token":"abc","do":"yank","name":"frob","release":"1.0-1","reason":""}
= {"answer":"refused","code":7,"name":"BadRelease"}
{"at":12,"token":"abc","do":"yank","name":"frob","release":"1.0","reason":"a\nb"}
= {"answer":"refused","code":8,"name":"BadText"}
{"at":12,"token":"abc","do":"yank","name":"frob","release":"7","reason":""}
= {"answer":"refused","code":23,"name":"NoRelease"}
{"at":12,"token":"abc","do":"yank","name":"spam","release":"1.0","reason":""}
= {"answer":"refused","code":17,"name":"NoProject"}
{"at":12,"token":"hello","do":"yank","name":"frob","release":"1.0","reason":""}
= {"answer":"refused","code":18,"name":"NotOwner"}
{"at":12,"token":"office","do":"unyank","name":"frob","release":"1.0"}
= {"answer":"refused","code":18,"name":"NotOwner"}
{"at":12,"token":"abc","do":"unyank","name":"frob","release":"1.0-1"}
= {"answer":"refused","code":7,"name":"BadRelease"}
{"at":13,"token":"abc","do":"delete","file":"frob-1.0.tar.gz"}
= {"answer":"accepted"}
{"at":14,"token":"abc","do":"yank","name":"frob","release":"1.0","reason":""}
= {"answer":"refused","code":23,"name":"NoRelease"}
"#;

#[test]
fn yanks_are_refused(rt: HostRuntime) {
    assert_transcript(&rt, &[USERS, FROB, FILE, REFUSED]);
}
