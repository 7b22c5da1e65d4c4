//! The attempts of a case.
use index_retention::{CaseFault, CaseState, Means, note};
use std::process::Abort;

/// A case with an attempt that was not sent.
fn case_with_attempt(rt: &impl Abort) -> CaseState {
    let mut case = CaseState::new();
    note(&mut case, Means::Author, false, 5).expect(rt, "an attempt");
    assert!(rt; case.first().is_none());
    assert!(rt; case.author() && !case.profile() && !case.pages());
    case
}

/// `case_with_attempt` with 999 more attempts, which were sent. The first that was recorded is at 90.
fn full_case(rt: &impl Abort) -> CaseState {
    let mut case = case_with_attempt(rt);
    note(&mut case, Means::Pages, true, 90).expect(rt, "an attempt");
    note(&mut case, Means::Pages, true, 70).expect(rt, "an attempt");
    assert!(rt; case.first() == Some(90));
    for _ in 3..1_000 {
        note(&mut case, Means::Profile, true, 100).expect(rt, "an attempt");
    }
    case
}

#[test]
fn attempts_of_a_case(rt: HostRuntime) {
    let full = full_case(&rt);
    let mut case = full;
    let answer = note(&mut case, Means::Profile, true, 100);
    assert!(rt; answer == Err(CaseFault::AttemptsFull));
    assert!(rt; case == full);
    assert!(rt; case.attempts() == 1_000 && case.sent() == 999);
}

/// Parts that fit make the case that has them.
fn assert_parts(rt: &impl Abort, attempts: u64, sent: u64, first: Option<u64>) {
    let found = CaseState::from_parts(attempts, sent, true, false, true, first);
    let case = found.expect(rt, "a case");
    assert!(rt; case.attempts() == attempts && case.sent() == sent);
    assert!(rt; case.first() == first);
    assert!(rt; case.profile() && !case.author() && case.pages());
}

/// Whether parts fit no case.
fn fit_none(attempts: u64, sent: u64, first: Option<u64>) -> bool {
    CaseState::from_parts(attempts, sent, true, false, true, first).is_none()
}

#[test]
fn cases_from_parts(rt: HostRuntime) {
    assert_parts(&rt, 0, 0, None);
    assert_parts(&rt, 1_000, 1_000, Some(0));
    assert_parts(&rt, 1_000, 0, None);
    assert!(rt; fit_none(1_001, 1, Some(0)));
    assert!(rt; fit_none(2, 3, Some(0)));
    assert!(rt; fit_none(2, 1, None));
    assert!(rt; fit_none(2, 0, Some(0)));
}
