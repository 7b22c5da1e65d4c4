//! When a name is transferred to a case's candidate.
ghost use Rattle.std.specs.Prelude.{◌≡◌, ◌+◌, ◌↔◌, IsOk, nat_lt};
ghost use Rattle.std.specs.Result.{result_err};
ghost use Rattle.index_retention.specs.Transfer.{IsReady, too_few_attempts, transfer_fault};

use crate::attempts::CaseState;
use crate::fault::CaseFault;

const FEWEST_SENT: u64 = 3;

const SIX_WEEKS: u64 = 42 * 86_400;

const TWELVE_MONTHS: u64 = 365 * 86_400;

// Whether `at` comes before `seconds` have passed since `since`. It makes no sum that could pass a `u64`.
fn is_within(at: u64, since: u64, seconds: u64) -> bool
    ensures { result ≡ nat_lt at (since + seconds) }
{
    at < since || at - since < seconds
}

/// Whether fewer than three attempts were sent, or one of the three means has no attempt.
fn has_too_few_attempts(case: &CaseState) -> bool
    ensures { result ≡ too_few_attempts case.now }
{
    case.sent() < FEWEST_SENT || !(case.profile() && case.author() && case.pages())
}

/// Whether the case is ready for a transfer at the moment `at`, in Unix seconds. `last_upload` is the greatest moment
/// of the name's uploads since its last claim. `quiet` is the office's statement that the owner's home page shows no
/// activity or that none is listed.
///
/// # Errors
///
/// The first of these that applies.
///
/// - `TooFewAttempts`: fewer than three attempts were sent, or one of the three means has none.
/// - `TooEarly`: less than six weeks (3,628,800 seconds) since the first attempt that was sent.
/// - `RecentRelease`: less than twelve months (31,536,000 seconds) since the last upload.
/// - `HomePageActive`: `quiet` is false.
pub fn may_transfer(
    case: &CaseState,
    last_upload: Option<u64>,
    quiet: bool,
    at: u64,
) -> Result<(), CaseFault>
    ensures least { result_err result ≡ transfer_fault case.now last_upload quiet at }
    ensures ready { IsOk result ↔ IsReady case.now last_upload quiet at }
{
    if has_too_few_attempts(case) {
        return Err(CaseFault::TooFewAttempts);
    }
    if case
        .first()
        .is_some_and(|first| is_within(at, first, SIX_WEEKS))
    {
        return Err(CaseFault::TooEarly);
    }
    if last_upload.is_some_and(|uploaded| is_within(at, uploaded, TWELVE_MONTHS)) {
        return Err(CaseFault::RecentRelease);
    }
    if !quiet {
        return Err(CaseFault::HomePageActive);
    }
    Ok(())
}
