//! When a transfer is ready.
use index_retention::{CaseFault, CaseState, Means, may_transfer, note};
use std::process::Abort;

/// An attempt that is recorded at a moment.
fn attempt(rt: &impl Abort, case: &mut CaseState, means: Means, sent: bool, at: u64) {
    note(case, means, sent, at).expect(rt, "an attempt");
}

/// A transfer at a moment gets this answer.
fn assert_answer(
    rt: &impl Abort,
    case: &CaseState,
    last_upload: Option<u64>,
    quiet: bool,
    at: u64,
    want: Result<(), CaseFault>,
) {
    let answer = may_transfer(case, last_upload, quiet, at);
    assert!(rt; answer == want, "at {at}");
}

/// The case of a name whose last upload is given. Three attempts are sent, and the third means is missing, until an
/// attempt by it is recorded that couldn't be sent.
fn case_with_each_means(rt: &impl Abort, last: Option<u64>) -> CaseState {
    let mut case = CaseState::new();
    let too_few = Err(CaseFault::TooFewAttempts);
    attempt(rt, &mut case, Means::Profile, true, 40_000_000);
    attempt(rt, &mut case, Means::Author, true, 40_000_100);
    assert_answer(rt, &case, last, true, 43_628_800, too_few);
    attempt(rt, &mut case, Means::Profile, true, 40_000_200);
    assert_answer(rt, &case, last, true, 43_628_800, too_few);
    attempt(rt, &mut case, Means::Pages, false, 40_000_300);
    case
}

#[test]
fn way_of_a_case(rt: HostRuntime) {
    let last = Some(12_092_801);
    let case = case_with_each_means(&rt, last);
    let too_early = Err(CaseFault::TooEarly);
    assert_answer(&rt, &case, last, true, 43_628_799, too_early);
    let recent = Err(CaseFault::RecentRelease);
    assert_answer(&rt, &case, last, true, 43_628_800, recent);
    let active = Err(CaseFault::HomePageActive);
    assert_answer(&rt, &case, last, false, 43_628_801, active);
    assert_answer(&rt, &case, last, true, 43_628_801, Ok(()));
    assert!(rt; case.attempts() == 4 && case.sent() == 3);
    assert!(rt; case.first() == Some(40_000_000));
}

/// A case with three attempts that were sent, one by each means, the first of them at `first`.
fn case_from(rt: &impl Abort, first: u64) -> CaseState {
    let mut case = CaseState::new();
    attempt(rt, &mut case, Means::Author, true, first);
    attempt(rt, &mut case, Means::Profile, true, first);
    attempt(rt, &mut case, Means::Pages, true, first);
    case
}

/// The year is counted from the upload at 100, and there may be no upload.
#[test]
fn year_of_the_last_upload(rt: HostRuntime) {
    let case = case_from(&rt, 0);
    let recent = Err(CaseFault::RecentRelease);
    assert_answer(&rt, &case, Some(100), true, 31_536_050, recent);
    assert_answer(&rt, &case, Some(100), true, 31_536_099, recent);
    assert_answer(&rt, &case, Some(100), true, 31_536_100, Ok(()));
    let too_early = Err(CaseFault::TooEarly);
    assert_answer(&rt, &case, None, true, 3_628_799, too_early);
    assert_answer(&rt, &case, None, true, 3_628_800, Ok(()));
}

/// At the last moments nothing wraps.
#[test]
fn last_moments(rt: HostRuntime) {
    let last = 253_402_300_799;
    let too_early = Err(CaseFault::TooEarly);
    assert_answer(&rt, &case_from(&rt, last), None, true, last, too_early);
    let six_weeks_before = case_from(&rt, 249_773_500_799);
    assert_answer(&rt, &six_weeks_before, None, true, last, Ok(()));
}

#[test]
fn greatest_numbers(rt: HostRuntime) {
    let greatest = u64::MAX;
    let too_early = Err(CaseFault::TooEarly);
    let case = case_from(&rt, greatest);
    assert_answer(&rt, &case, None, true, greatest, too_early);
    assert_answer(&rt, &case, Some(greatest), true, 0, too_early);
    let case = case_from(&rt, 0);
    let recent = Err(CaseFault::RecentRelease);
    assert_answer(&rt, &case, Some(greatest), true, greatest, recent);
    assert_answer(&rt, &case, Some(0), true, greatest, Ok(()));
}
