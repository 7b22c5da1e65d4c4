//! User ids.
ghost use Rattle.std.specs.Prelude.{◌≡◌, ◌↔◌, IfOk, Some, None, Err};
ghost use Rattle.std.specs.List.{list_all};
ghost use Rattle.index_rules.specs.Users.{IsUserId, is_user_id as is_user_id_lem, is_user_letter as is_user_letter_lem, read_user};

use index_text::{Text, ascii};
use std::alloc::{AllocError, Global};
use std::error::Error;
use std::fmt;
use std::marker::Model;

/// The most bytes of a user id.
const LONGEST_USER_ID: usize = 32;

/// A user id: 1 to 32 bytes of `a-z0-9`. Contracts see its bytes, and it compares in byte order.
#[derive(Clone, Debug, PartialEq, Eq, PartialOrd, Ord)]
pub struct UserId {
    text: Text,
}

// By hand: each exit of a function then makes one call to drop (docs/developers/PROOF-COSTS.md).
impl Drop for UserId {
    fn drop(self) {
        let UserId { text: _text } = self;
    }
}

impl Model for UserId {
    ghost use Rattle.std.specs.Prelude.{List, ℕ};
    ghost use Rattle.index_rules.specs.Users.{IsUserId};

    ghost Value = { List ℕ };

    ghost view = { λ user. user.text };

    ghost invariant = { λ user. IsUserId user.text };

    ghost inverse = { λ bytes. record { text = bytes } };
}

/// Why bytes are not a user id.
#[derive(Clone, Copy, Debug, PartialEq, Eq, Hash)]
pub enum UserFault {
    BadUser,
    OutOfMemory,
}

impl fmt::Display for UserFault {
    ghost use Rattle.index_rules.specs.Printed.{user_fault_text};

    ghost output = { λ fault. Some (user_fault_text fault) };

    fn fmt<W: fmt::Write>(&self, f: &mut fmt::Formatter<W>) -> fmt::Result {
        f.write_str(match self {
            UserFault::BadUser => "not a user id",
            UserFault::OutOfMemory => "out of memory",
        })
    }
}

impl Error for UserFault {}

impl From<AllocError> for UserFault {
    ghost use Rattle.index_rules.specs.declared.user.UserFault.TheVariants.{OutOfMemory};

    ghost from_gives = { λ _ e. e ≡ OutOfMemory };

    fn from(_error: AllocError) -> UserFault {
        UserFault::OutOfMemory
    }
}

impl UserId {
    /// The user id that these bytes are.
    ///
    /// # Errors
    ///
    /// `BadUser` exactly if the bytes are not a valid user id, else `OutOfMemory`.
    #[tactic(auto, unfolding(crate::specs::Users::read_user))]
    pub fn read(alloc: Global, bytes: &[u8]) -> Result<UserId, UserFault>
        ensures id { IfOk result (λ id. read_user bytes.now ≡ Some id) }
        ensures bad { (result ≡ Err UserFault.BadUser) ↔ (read_user bytes.now ≡ None) }
    {
        if !is_user_id(bytes) {
            return Err(UserFault::BadUser);
        }
        let text = Text::new(String::from_str(alloc, ascii(bytes))?);
        Ok(UserId { text })
    }

    /// The id's text.
    pub fn text(&self) -> &str
        ensures text { result.now ≡ self.now }
        ensures user { IsUserId self.now }
    {
        self.text.as_str()
    }
}

/// Whether these bytes are a valid user id.
pub(crate) fn is_user_id(bytes: &[u8]) -> bool
    ensures { result ≡ is_user_id_lem bytes.now }
{
    !bytes.is_empty() && bytes.len() <= LONGEST_USER_ID && has_user_letters(bytes)
}

/// Whether each byte is one that user ids may have.
fn has_user_letters(bytes: &[u8]) -> bool
    ensures { result ≡ list_all is_user_letter_lem bytes.now }
{
    bytes.iter().all(|&byte| is_user_letter(byte))
}

fn is_user_letter(byte: u8) -> bool
    ensures { result ≡ is_user_letter_lem byte }
{
    matches!(byte, b'a'..=b'z' | b'0'..=b'9')
}
