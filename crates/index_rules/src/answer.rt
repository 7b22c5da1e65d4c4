//! What is answered to a call.
ghost use Rattle.std.specs.Prelude.{◌≡◌};
ghost use Rattle.index_rules.specs.Refusals.{number_of};

use std::alloc::AllocError;
use std::fmt;

/// Why a call is refused. If several refusals apply, the one with the least number is answered. A refused call changes
/// nothing.
#[derive(Clone, Copy, Debug, PartialEq, Eq, Hash)]
pub enum Refusal {
    /// The moment is greater than 253,402,300,799.
    BadMoment,
    /// No user has a token with this digest.
    BadToken,
    /// The caller is not of the office; for `CloseCase`, nor the candidate of an open case of the name.
    NotOffice,
    /// The bytes are not a valid user id.
    BadUser,
    /// The bytes are not a valid project name.
    BadName,
    /// The bytes are not a valid file name of a wheel or a source archive.
    BadFileName,
    /// The bytes are not a valid version.
    BadRelease,
    /// The bytes are not a valid text; for a text of a case, also no bytes at all.
    BadText,
    /// The bytes are not a digest in hexadecimal; for a token, also the digest of the empty text.
    BadDigest,
    /// The body has more than 16,777,216 bytes.
    TooLarge,
    /// The body's SHA-256 digest is not the declared one.
    DigestMismatch,
    /// The quota is greater than 1,099,511,627,776 bytes.
    QuotaTooLarge,
    /// The named user does not exist.
    NoUser,
    /// The user exists, with another flag or token.
    UserExists,
    /// Another user has a token with this digest.
    TokenTaken,
    /// The name is prohibited.
    NameProhibited,
    /// The name is not held.
    NoProject,
    /// The caller does not own the name.
    NotOwner,
    /// The name is held, and the caller does not own it.
    NameHeld,
    /// The user is the name's one owner.
    LastOwner,
    /// The name has an undeleted file.
    FilesRemain,
    /// The file was never accepted.
    NoFile,
    /// The release has no undeleted file.
    NoRelease,
    /// The file name is bound to another digest or size.
    FileNameTaken,
    /// The file is banned.
    FileBanned,
    /// The file is not undeleted, and its size would bring the charge above the quota.
    OverQuota,
    /// The quota is less than the charge.
    QuotaBelowCharge,
    /// The name has an open case.
    CaseOpen,
    /// The caller owns the name.
    OwnerCandidate,
    /// The name has no open case.
    NoCase,
    /// The case has 1,000 attempts.
    AttemptsFull,
    /// Fewer than three attempts were sent, or one of the three means has no attempt.
    TooFewAttempts,
    /// The moment is less than 3,628,800 seconds after the first attempt that was sent, in order of recording.
    TooEarly,
    /// An upload of the name since its last claim is less than 31,536,000 seconds old.
    RecentRelease,
    /// The home page is not stated to be quiet.
    HomePageActive,
}

/// Why a call could not be answered. It changed nothing while the program runs; after a restart its request may turn
/// out to have been applied, as a whole.
#[derive(Clone, Copy, Debug, PartialEq, Eq, Hash)]
pub enum Fault {
    OutOfMemory,
    Store,
}

/// The answer to a call.
#[derive(Clone, Copy, Debug, PartialEq, Eq, Hash)]
pub enum Answer {
    /// The request is applied to the tables.
    Accepted,
    /// The tables are already as the request asks; nothing changed.
    Already,
    Refused(Refusal),
    Fault(Fault),
}

impl Refusal {
    /// The refusal's number, without an allocation.
    pub fn number(self) -> u8
        ensures { result ≡ number_of self }
    {
        match self {
            Refusal::BadMoment => 1,
            Refusal::BadToken => 2,
            Refusal::NotOffice => 3,
            Refusal::BadUser => 4,
            Refusal::BadName => 5,
            Refusal::BadFileName => 6,
            Refusal::BadRelease => 7,
            Refusal::BadText => 8,
            Refusal::BadDigest => 9,
            Refusal::TooLarge => 10,
            Refusal::DigestMismatch => 11,
            Refusal::QuotaTooLarge => 12,
            Refusal::NoUser => 13,
            Refusal::UserExists => 14,
            Refusal::TokenTaken => 15,
            Refusal::NameProhibited => 16,
            Refusal::NoProject => 17,
            Refusal::NotOwner => 18,
            Refusal::NameHeld => 19,
            Refusal::LastOwner => 20,
            Refusal::FilesRemain => 21,
            Refusal::NoFile => 22,
            Refusal::NoRelease => 23,
            Refusal::FileNameTaken => 24,
            Refusal::FileBanned => 25,
            Refusal::OverQuota => 26,
            Refusal::QuotaBelowCharge => 27,
            Refusal::CaseOpen => 28,
            Refusal::OwnerCandidate => 29,
            Refusal::NoCase => 30,
            Refusal::AttemptsFull => 31,
            Refusal::TooFewAttempts => 32,
            Refusal::TooEarly => 33,
            Refusal::RecentRelease => 34,
            Refusal::HomePageActive => 35,
        }
    }
}

impl fmt::Display for Fault {
    ghost use Rattle.std.specs.Prelude.{Some};
    ghost use Rattle.index_rules.specs.Printed.{fault_text};

    ghost output = { λ fault. Some (fault_text fault) };

    fn fmt<W: fmt::Write>(&self, f: &mut fmt::Formatter<W>) -> fmt::Result {
        f.write_str(match self {
            Fault::OutOfMemory => "OutOfMemory",
            Fault::Store => "Store",
        })
    }
}

impl From<AllocError> for Fault {
    ghost use Rattle.index_rules.specs.declared.answer.Fault.TheVariants.{OutOfMemory};

    ghost from_gives = { λ _ fault. fault ≡ OutOfMemory };

    fn from(_error: AllocError) -> Fault {
        Fault::OutOfMemory
    }
}
