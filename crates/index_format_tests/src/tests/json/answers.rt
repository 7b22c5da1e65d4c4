//! The texts of answers and standings.
use index_json::{answer_text, standing_text};
use index_names::{NormalName, normal};
use index_rules::{Answer, Fault, Refusal, Standing};
use std::alloc::AllocGlobal;
use std::process::Abort;

#[test]
fn writes_answers(rt: HostRuntime) {
    let accepted = r#"{"answer":"accepted"}"#;
    assert_eq!(rt; answer_text(&Answer::Accepted), accepted);
    let already = r#"{"answer":"already"}"#;
    assert_eq!(rt; answer_text(&Answer::Already), already);
}

#[test]
fn writes_faults(rt: HostRuntime) {
    let out_of_memory = r#"{"answer":"fault","name":"OutOfMemory"}"#;
    assert_eq!(rt;
        answer_text(&Answer::Fault(Fault::OutOfMemory)),
        out_of_memory
    );
    let store = r#"{"answer":"fault","name":"Store"}"#;
    assert_eq!(rt; answer_text(&Answer::Fault(Fault::Store)), store);
}

/// The refusals in the order of their numbers.
const REFUSALS: &[Refusal] = &[
    Refusal::BadMoment,
    Refusal::BadToken,
    Refusal::NotOffice,
    Refusal::BadUser,
    Refusal::BadName,
    Refusal::BadFileName,
    Refusal::BadRelease,
    Refusal::BadText,
    Refusal::BadDigest,
    Refusal::TooLarge,
    Refusal::DigestMismatch,
    Refusal::QuotaTooLarge,
    Refusal::NoUser,
    Refusal::UserExists,
    Refusal::TokenTaken,
    Refusal::NameProhibited,
    Refusal::NoProject,
    Refusal::NotOwner,
    Refusal::NameHeld,
    Refusal::LastOwner,
    Refusal::FilesRemain,
    Refusal::NoFile,
    Refusal::NoRelease,
    Refusal::FileNameTaken,
    Refusal::FileBanned,
    Refusal::OverQuota,
    Refusal::QuotaBelowCharge,
    Refusal::CaseOpen,
    Refusal::OwnerCandidate,
    Refusal::NoCase,
    Refusal::AttemptsFull,
    Refusal::TooFewAttempts,
    Refusal::TooEarly,
    Refusal::RecentRelease,
    Refusal::HomePageActive,
];

/// The numbers of the refusals, as `docs/reference/REQUESTS.md` has them.
const NUMBERS: &[u8] = &[
    1, 2, 3, 4, 5, 6, 7, 8, 9, 10, 11, 12, 13, 14, 15, 16, 17, 18, 19, 20, 21, 22, 23, 24, 25, 26,
    27, 28, 29, 30, 31, 32, 33, 34, 35,
];

/// The texts of the refusals, with their numbers and their names.
const TEXTS: &str = r#"{"answer":"refused","code":1,"name":"BadMoment"}
{"answer":"refused","code":2,"name":"BadToken"}
{"answer":"refused","code":3,"name":"NotOffice"}
{"answer":"refused","code":4,"name":"BadUser"}
{"answer":"refused","code":5,"name":"BadName"}
{"answer":"refused","code":6,"name":"BadFileName"}
{"answer":"refused","code":7,"name":"BadRelease"}
{"answer":"refused","code":8,"name":"BadText"}
{"answer":"refused","code":9,"name":"BadDigest"}
{"answer":"refused","code":10,"name":"TooLarge"}
{"answer":"refused","code":11,"name":"DigestMismatch"}
{"answer":"refused","code":12,"name":"QuotaTooLarge"}
{"answer":"refused","code":13,"name":"NoUser"}
{"answer":"refused","code":14,"name":"UserExists"}
{"answer":"refused","code":15,"name":"TokenTaken"}
{"answer":"refused","code":16,"name":"NameProhibited"}
{"answer":"refused","code":17,"name":"NoProject"}
{"answer":"refused","code":18,"name":"NotOwner"}
{"answer":"refused","code":19,"name":"NameHeld"}
{"answer":"refused","code":20,"name":"LastOwner"}
{"answer":"refused","code":21,"name":"FilesRemain"}
{"answer":"refused","code":22,"name":"NoFile"}
{"answer":"refused","code":23,"name":"NoRelease"}
{"answer":"refused","code":24,"name":"FileNameTaken"}
{"answer":"refused","code":25,"name":"FileBanned"}
{"answer":"refused","code":26,"name":"OverQuota"}
{"answer":"refused","code":27,"name":"QuotaBelowCharge"}
{"answer":"refused","code":28,"name":"CaseOpen"}
{"answer":"refused","code":29,"name":"OwnerCandidate"}
{"answer":"refused","code":30,"name":"NoCase"}
{"answer":"refused","code":31,"name":"AttemptsFull"}
{"answer":"refused","code":32,"name":"TooFewAttempts"}
{"answer":"refused","code":33,"name":"TooEarly"}
{"answer":"refused","code":34,"name":"RecentRelease"}
{"answer":"refused","code":35,"name":"HomePageActive"}"#;

fn assert_refusal(rt: &impl Abort, refusal: Refusal, number: u8, text: &str) {
    assert!(rt; refusal.number() == number, "{text}");
    assert_eq!(rt; answer_text(&Answer::Refused(refusal)), text);
}

#[test]
fn writes_refusals(rt: HostRuntime) {
    assert!(rt; REFUSALS.len() == 35 && NUMBERS.len() == 35 && TEXTS.lines().count() == 35);
    for ((refusal, number), text) in REFUSALS.iter().zip(NUMBERS).zip(TEXTS.lines()) {
        assert_refusal(&rt, *refusal, *number, text);
    }
}

/// The standing of `x` has this text.
fn assert_standing(rt: &(impl Abort + AllocGlobal), standing: Standing, want: &str) {
    let text = standing_text(rt.alloc(), &standing);
    drop(standing);
    let text = text.expect(rt, want);
    assert_eq!(rt; text.as_str(), want);
}

/// The name `x`.
fn name(rt: &(impl Abort + AllocGlobal)) -> NormalName {
    normal(rt.alloc(), b"x").expect(rt, "x")
}

#[test]
fn writes_the_standing_of_a_name_that_is_not_held(rt: HostRuntime) {
    let free = Standing::Free { name: name(&rt) };
    assert_standing(&rt, free, r#"{"name":"x","state":"free"}"#);
    let prohibited = Standing::Prohibited { name: name(&rt) };
    assert_standing(&rt, prohibited, r#"{"name":"x","state":"prohibited"}"#);
}
