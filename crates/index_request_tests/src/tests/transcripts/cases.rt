//! Retention cases, and what ends them.
use super::{CASE, FROB, USERS, assert_transcript};

const QUIET: &str = r#"
{"at":40000000,"token":"office","do":"record_attempt","name":"frob","means":"profile","sent":true}
= {"answer":"accepted"}
{"at":40000100,"token":"office","do":"record_attempt","name":"frob","means":"author","sent":true}
= {"answer":"accepted"}
{"at":43628800,"token":"office","do":"transfer","name":"frob","quiet":true}
= {"answer":"refused","code":32,"name":"TooFewAttempts"}
{"at":40000200,"token":"office","do":"record_attempt","name":"frob","means":"profile","sent":true}
= {"answer":"accepted"}
{"at":43628800,"token":"office","do":"transfer","name":"frob","quiet":true}
= {"answer":"refused","code":32,"name":"TooFewAttempts"}
{"at":40000300,"token":"office","do":"record_attempt","name":"frob","means":"pages","sent":false}
= {"answer":"accepted"}
{"at":43628799,"token":"office","do":"transfer","name":"frob","quiet":true}
= {"answer":"refused","code":33,"name":"TooEarly"}
{"at":43628800,"token":"office","do":"transfer","name":"frob","quiet":true}
= {"answer":"refused","code":34,"name":"RecentRelease"}
{"at":43628801,"token":"office","do":"transfer","name":"frob","quiet":false}
= {"answer":"refused","code":35,"name":"HomePageActive"}
{"do":"standing","name":"frob"}
= {"case":{"attempts":4,"author":true,"candidate":"bob","contact":"mail","first":40000000,"kind":"continue","opened":39999999,"pages":true,"profile":true,"sent":3,"why":"used","work":"fork"},"charge":3,"name":"frob","owners":["ann"],"quota":1073741824,"shown":"frob","state":"held"}
{"at":43628801,"token":"office","do":"transfer","name":"frob","quiet":true}
= {"answer":"accepted"}
{"do":"standing","name":"frob"}
= {"case":null,"charge":3,"name":"frob","owners":["bob"],"quota":1073741824,"shown":"frob","state":"held"}
"#;

#[test]
fn a_quiet_name_goes_to_its_candidate(rt: HostRuntime) {
    assert_transcript(&rt, &[USERS, FROB, CASE, QUIET]);
}

/// An upload at an earlier moment than the one before it does not count.
const GREATEST_MOMENT: &str = r#"
{"at":100,"token":"abc","do":"upload","file":"frob-1.0.tar.gz","sha256":"<abc>","hex":"616263","requires_python":""}
= {"answer":"accepted"}
{"at":50,"token":"abc","do":"upload","file":"frob-1.1.tar.gz","sha256":"<abc>","hex":"616263","requires_python":""}
= {"answer":"accepted"}
{"at":26999999,"token":"hello","do":"open_case","name":"frob","kind":"continue","contact":"mail","work":"fork","why":"used"}
= {"answer":"accepted"}
{"at":27000000,"token":"office","do":"record_attempt","name":"frob","means":"profile","sent":true}
= {"answer":"accepted"}
{"at":27000000,"token":"office","do":"record_attempt","name":"frob","means":"author","sent":true}
= {"answer":"accepted"}
{"at":27000000,"token":"office","do":"record_attempt","name":"frob","means":"pages","sent":true}
= {"answer":"accepted"}
{"at":31536099,"token":"office","do":"transfer","name":"frob","quiet":true}
= {"answer":"refused","code":34,"name":"RecentRelease"}
{"at":31536100,"token":"office","do":"transfer","name":"frob","quiet":true}
= {"answer":"accepted"}
"#;

#[test]
fn the_year_runs_from_the_greatest_moment(rt: HostRuntime) {
    assert_transcript(&rt, &[USERS, FROB, GREATEST_MOMENT]);
}

const YANKED: &str = r#"
{"at":40000000,"token":"office","do":"record_attempt","name":"frob","means":"profile","sent":true}
= {"answer":"accepted"}
{"at":40000100,"token":"office","do":"record_attempt","name":"frob","means":"author","sent":true}
= {"answer":"accepted"}
{"at":40000200,"token":"office","do":"record_attempt","name":"frob","means":"profile","sent":true}
= {"answer":"accepted"}
{"at":40000300,"token":"office","do":"record_attempt","name":"frob","means":"pages","sent":false}
= {"answer":"accepted"}
{"at":43000000,"token":"abc","do":"yank","name":"frob","release":"1.0","reason":""}
= {"answer":"accepted"}
{"at":43628801,"token":"office","do":"transfer","name":"frob","quiet":true}
= {"answer":"refused","code":30,"name":"NoCase"}
{"do":"standing","name":"frob"}
= {"case":null,"charge":3,"name":"frob","owners":["ann"],"quota":1073741824,"shown":"frob","state":"held"}
"#;

#[test]
fn a_yank_by_the_owner_ends_the_case(rt: HostRuntime) {
    assert_transcript(&rt, &[USERS, FROB, CASE, YANKED]);
}

const OPENED_AND_CLOSED: &str = r#"
{"at":11,"token":"abc","do":"open_case","name":"frob","kind":"reuse","contact":"c","work":"w","why":"y"}
= {"answer":"refused","code":29,"name":"OwnerCandidate"}
{"at":11,"token":"hello","do":"open_case","name":"frob","kind":"reuse","contact":"c","work":"w","why":""}
= {"answer":"refused","code":8,"name":"BadText"}
{"at":12,"token":"hello","do":"open_case","name":"frob","kind":"reuse","contact":"c","work":"w","why":"y"}
= {"answer":"accepted"}
{"do":"standing","name":"frob"}
= {"case":{"attempts":0,"author":false,"candidate":"bob","contact":"c","first":null,"kind":"reuse","opened":12,"pages":false,"profile":false,"sent":0,"why":"y","work":"w"},"charge":0,"name":"frob","owners":["ann"],"quota":1073741824,"shown":"frob","state":"held"}
{"at":13,"token":"hello","do":"open_case","name":"frob","kind":"reuse","contact":"c","work":"w","why":"y"}
= {"answer":"refused","code":28,"name":"CaseOpen"}
{"at":13,"token":"abc","do":"open_case","name":"frob","kind":"reuse","contact":"c","work":"w","why":"y"}
= {"answer":"refused","code":28,"name":"CaseOpen"}
{"at":14,"token":"abc","do":"close_case","name":"frob"}
= {"answer":"refused","code":3,"name":"NotOffice"}
{"at":15,"token":"hello","do":"close_case","name":"frob"}
= {"answer":"accepted"}
{"at":16,"token":"hello","do":"close_case","name":"frob"}
= {"answer":"refused","code":3,"name":"NotOffice"}
{"at":17,"token":"office","do":"close_case","name":"frob"}
= {"answer":"refused","code":30,"name":"NoCase"}
"#;

#[test]
fn cases_are_opened_and_closed(rt: HostRuntime) {
    assert_transcript(&rt, &[USERS, FROB, OPENED_AND_CLOSED]);
}

/// A request that is answered `already` ends no case.
const ANSWERED: &str = r#"
{"at":40000000,"token":"abc","do":"remove_owner","name":"frob","user":"bob"}
= {"answer":"already"}
{"do":"standing","name":"frob"}
= {"case":{"attempts":0,"author":false,"candidate":"bob","contact":"mail","first":null,"kind":"continue","opened":39999999,"pages":false,"profile":false,"sent":0,"why":"used","work":"fork"},"charge":3,"name":"frob","owners":["ann"],"quota":1073741824,"shown":"frob","state":"held"}
{"at":40000001,"token":"abc","do":"answer_case","name":"frob"}
= {"answer":"accepted"}
{"do":"standing","name":"frob"}
= {"case":null,"charge":3,"name":"frob","owners":["ann"],"quota":1073741824,"shown":"frob","state":"held"}
"#;

#[test]
fn the_owner_answers_the_case(rt: HostRuntime) {
    assert_transcript(&rt, &[USERS, FROB, CASE, ANSWERED]);
}

const REPEATED: &str = r#"
{"at":40000000,"token":"office","do":"record_attempt","name":"frob","means":"profile","sent":true}
= {"answer":"accepted"}
{"at":40000000,"token":"office","do":"record_attempt","name":"frob","means":"profile","sent":true}
= {"answer":"accepted"}
{"do":"standing","name":"frob"}
= {"case":{"attempts":2,"author":false,"candidate":"bob","contact":"mail","first":40000000,"kind":"continue","opened":39999999,"pages":false,"profile":true,"sent":2,"why":"used","work":"fork"},"charge":3,"name":"frob","owners":["ann"],"quota":1073741824,"shown":"frob","state":"held"}
"#;

#[test]
fn a_repeated_attempt_is_a_second_one(rt: HostRuntime) {
    assert_transcript(&rt, &[USERS, FROB, CASE, REPEATED]);
}

/// Only the office records attempts and transfers a name, and only an owner answers a case.
const BY_OTHERS: &str = r#"
{"at":40000000,"token":"hello","do":"record_attempt","name":"frob","means":"profile","sent":true}
= {"answer":"refused","code":3,"name":"NotOffice"}
{"at":90000000,"token":"hello","do":"transfer","name":"frob","quiet":true}
= {"answer":"refused","code":3,"name":"NotOffice"}
{"at":90000000,"token":"abc","do":"transfer","name":"frob","quiet":true}
= {"answer":"refused","code":3,"name":"NotOffice"}
{"at":90000000,"token":"hello","do":"answer_case","name":"frob"}
= {"answer":"refused","code":18,"name":"NotOwner"}
{"at":90000000,"token":"office","do":"answer_case","name":"frob"}
= {"answer":"refused","code":18,"name":"NotOwner"}
{"do":"standing","name":"frob"}
= {"case":{"attempts":0,"author":false,"candidate":"bob","contact":"mail","first":null,"kind":"continue","opened":39999999,"pages":false,"profile":false,"sent":0,"why":"used","work":"fork"},"charge":3,"name":"frob","owners":["ann"],"quota":1073741824,"shown":"frob","state":"held"}
"#;

#[test]
fn nobody_else_moves_a_case_on(rt: HostRuntime) {
    assert_transcript(&rt, &[USERS, FROB, CASE, BY_OTHERS]);
}
