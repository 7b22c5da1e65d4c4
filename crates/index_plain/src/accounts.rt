//! The users, and who has which token.
ghost use Rattle.std.specs.Prelude.{◌≡◌, None, Some, false};
ghost use Rattle.std.specs.FinMap.{empty, get};
ghost use Rattle.index_rules.specs.Maps.{same};
ghost use Rattle.index_plain.specs.Trees.{Puts, table_of};
ghost use Rattle.index_plain.specs.Bearers.{AreBearers, bearers_of, token_in};

use crate::{pairs, table};
use index_digest::Digest256;
use index_rules::{UserId, UserRecord};
use std::alloc::{AllocError, Global};
use std::collections::BTreeMap;

/// The users with their records, and the users by the digests of their tokens.
#[derive(Debug)]
pub(crate) struct Accounts {
    pub(crate) users: BTreeMap<UserId, UserRecord>,
    pub(crate) bearers: BTreeMap<Digest256, BTreeMap<UserId, ()>>,
    ghost agree: { AreBearers (table_of users) (bearers_of bearers) },
}

// By hand: each exit of a function then makes one call to drop (docs/developers/PROOF-COSTS.md).
impl Drop for Accounts {
    fn drop(self) {
        let Accounts {
            users: _users,
            bearers: _bearers,
        } = self;
    }
}

impl Accounts {
    /// No users.
    pub(crate) fn new(alloc: Global) -> Accounts
        ensures { table_of result.users ≡ empty }
    {
        Accounts {
            users: BTreeMap::new(alloc),
            bearers: BTreeMap::new(alloc),
        }
    }

    /// Puts the record of a user, in place of an earlier one. If memory runs out, nothing changes.
    pub(crate) fn put(
        &mut self,
        alloc: Global,
        user: &UserId,
        known: UserRecord,
    ) -> Result<(), AllocError>
        ensures { Puts (table_of self.old.users) (table_of self.new.users) user.now known result }
    {
        match self.token_of(user) {
            Some(former) if former == known.token => table::put(&mut self.users, user, known),
            Some(former) => self.put_with_token(alloc, user, former, known),
            None => put_both(alloc, &mut self.users, &mut self.bearers, user, known),
        }
    }

    /// The digest of a user's token.
    fn token_of(&self, user: &UserId) -> Option<Digest256>
        ensures { result ≡ token_in (table_of self.now.users) user.now }
    {
        match table::find(&self.users, user) {
            Some(known) => Some(known.token),
            None => None,
        }
    }

    /// Puts the record of a user who had another token.
    fn put_with_token(
        &mut self,
        alloc: Global,
        user: &UserId,
        former: Digest256,
        known: UserRecord,
    ) -> Result<(), AllocError>
        requires former { token_in (table_of self.old.users) user.now ≡ Some former }
        requires other { same former known.token ≡ false }
        ensures { Puts (table_of self.old.users) (table_of self.new.users) user.now known result }
    {
        put_both(alloc, &mut self.users, &mut self.bearers, user, known)?;
        pairs::remove(&mut self.bearers, &former, user);
        Ok(())
    }
}

/// Puts the record of a user, and the user at the digest of the token. If memory runs out, both maps stay as they were.
fn put_both(
    alloc: Global,
    users: &mut BTreeMap<UserId, UserRecord>,
    bearers: &mut BTreeMap<Digest256, BTreeMap<UserId, ()>>,
    user: &UserId,
    known: UserRecord,
) -> Result<(), AllocError>
    requires { get (bearers_of bearers.old) (known.token, user.now) ≡ None }
    ensures user { Puts (table_of users.old) (table_of users.new) user.now known result }
    ensures bearer { let before = bearers_of bearers.old in
        Puts before (bearers_of bearers.new) (known.token, user.now) tt result }
{
    pairs::put(alloc, bearers, &known.token, user, ())?;
    match table::put(users, user, known) {
        Ok(()) => Ok(()),
        Err(error) => {
            pairs::remove(bearers, &known.token, user);
            Err(error)
        }
    }
}
