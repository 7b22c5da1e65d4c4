//! What prevents an attempt or a transfer.
use std::error::Error;
use std::fmt;

/// Why an attempt isn't recorded, or a name isn't transferred.
#[derive(Clone, Copy, Debug, PartialEq, Eq, Hash)]
pub enum CaseFault {
    /// The case has 1,000 attempts.
    AttemptsFull,
    /// Fewer than three attempts were sent, or one of the three means has no attempt.
    TooFewAttempts,
    /// Less than six weeks passed since the first attempt that was sent.
    TooEarly,
    /// The name's latest upload is less than twelve months old.
    RecentRelease,
    /// The owner's home page may show activity.
    HomePageActive,
}

impl fmt::Display for CaseFault {
    ghost use Rattle.std.specs.Prelude.{Some};
    ghost use Rattle.index_retention.specs.Printed.{case_fault_text};

    ghost output = { λ fault. Some (case_fault_text fault) };

    fn fmt<W: fmt::Write>(&self, f: &mut fmt::Formatter<W>) -> fmt::Result {
        f.write_str(match self {
            CaseFault::AttemptsFull => "the case has 1,000 attempts",
            CaseFault::TooFewAttempts => "too few attempts to reach the owner",
            CaseFault::TooEarly => "less than six weeks since the first attempt",
            CaseFault::RecentRelease => "an upload in the last twelve months",
            CaseFault::HomePageActive => "the owner's home page may show activity",
        })
    }
}

impl Error for CaseFault {}
