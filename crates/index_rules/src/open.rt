//! The opening of an index, and the first user of a new one.
ghost use Rattle.std.specs.Prelude.{◌≡◌};
ghost use Rattle.index_names.specs.Faults.{FailsByEither};
ghost use Rattle.index_rules.specs.FirstTables.{RefusesBadFirstUser, first_record};
ghost use Rattle.index_rules.specs.Results.{Returns};

use crate::records::UserRecord;
use crate::user::{UserFault, UserId};
use index_digest::Digest256;
use std::alloc::{AllocError, Global};
use std::error::Error;
use std::fmt;

/// Why an index was not opened.
#[derive(Clone, Copy, Debug, PartialEq, Eq, Hash)]
pub enum OpenFault {
    /// The bytes are not a valid user id, or the digest is that of the empty text, which is not a token.
    BadFirstUser,
    /// A new index was asked for, but there are tables of one already.
    NotEmpty,
    /// The tables are not those of an index.
    NotAnIndex,
    /// The index has an unknown version.
    OtherVersion,
    OutOfMemory,
    /// The store failed, or has invalid rows.
    Store,
}

impl fmt::Display for OpenFault {
    ghost use Rattle.std.specs.Prelude.{Some};
    ghost use Rattle.index_rules.specs.Printed.{open_fault_text};

    ghost output = { λ fault. Some (open_fault_text fault) };

    fn fmt<W: fmt::Write>(&self, f: &mut fmt::Formatter<W>) -> fmt::Result {
        f.write_str(match self {
            OpenFault::BadFirstUser => "BadFirstUser",
            OpenFault::NotEmpty => "NotEmpty",
            OpenFault::NotAnIndex => "NotAnIndex",
            OpenFault::OtherVersion => "OtherVersion",
            OpenFault::OutOfMemory => "OutOfMemory",
            OpenFault::Store => "Store",
        })
    }
}

impl Error for OpenFault {}

impl From<AllocError> for OpenFault {
    ghost use Rattle.index_rules.specs.declared.open.OpenFault.TheVariants.{OutOfMemory};

    ghost from_gives = { λ _ fault. fault ≡ OutOfMemory };

    fn from(_error: AllocError) -> OpenFault {
        OpenFault::OutOfMemory
    }
}

/// The first user of a new index, who is of the office and whose token has this SHA-256 digest.
///
/// # Errors
///
/// `BadFirstUser` exactly if the bytes are not a valid user id or the digest is that of the empty text, else
/// `OutOfMemory`.
#[tactic(auto, unfolding(crate::specs::Users::read_user))]
pub fn first_user(
    alloc: Global,
    user: &[u8],
    token: Digest256,
) -> Result<(UserId, UserRecord), OpenFault>
    ensures first { Returns result (user.now, first_record token) }
    ensures bad_first_user { RefusesBadFirstUser user.now token result }
    ensures fault { FailsByEither result OpenFault.BadFirstUser OpenFault.OutOfMemory }
{
    if token == Digest256::of(b"") {
        return Err(OpenFault::BadFirstUser);
    }
    match UserId::read(alloc, user) {
        Ok(user) => Ok((
            user,
            UserRecord {
                office: true,
                token,
            },
        )),
        Err(UserFault::BadUser) => Err(OpenFault::BadFirstUser),
        Err(UserFault::OutOfMemory) => Err(OpenFault::OutOfMemory),
    }
}
