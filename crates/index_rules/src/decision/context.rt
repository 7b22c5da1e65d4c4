//! What a decision rests on besides its request.
ghost use Rattle.std.specs.Prelude.{◌≡◌, Some, option_copied};
ghost use Rattle.std.specs.List.{list_all, list_any};
ghost use Rattle.index_rules.specs.Maps.{same};
ghost use Rattle.index_rules.specs.Facts.{is_one_of, is_only_one_of};
ghost use Rattle.index_rules.specs.Verdict.{held_project};

use crate::project::Project;
use crate::records::NameRecord;
use crate::user::UserId;
use crate::view::{Caller, View};
use std::alloc::Global;

/// What a decision rests on besides its request. The caller is the one in view.
#[derive(Clone, Copy)]
pub struct Context<'a> {
    pub alloc: Global,
    /// When the call is made, in Unix seconds.
    pub at: u64,
    pub caller: &'a Caller,
    /// The records that the keys of the call name.
    pub view: &'a View,
    ghost in_view: { view.now.caller ≡ Some caller.now },
}

impl<'a> Context<'a> {
    /// The name that the call is about, if it is held.
    pub fn project(&self) -> Option<&'a Project>
        ensures { option_copied result ≡ held_project self.now.view.now.name }
    {
        match &self.view.name {
            Some(NameRecord::Held(project)) => Some(project),
            Some(NameRecord::Prohibited) | None => None,
        }
    }

    /// Whether the caller owns that name.
    pub fn owns(&self) -> bool
        ensures { result ≡ is_one_of self.now.view.now.owners (Some self.now.caller.now.user) }
    {
        self.is_owner(self.caller.user.text().as_bytes())
    }

    /// Whether the user with this id owns that name.
    pub fn is_owner(&self, user: &[u8]) -> bool
        ensures { result ≡ is_one_of self.now.view.now.owners (Some user.now) }
    {
        is_one(self.view.owners.as_slice(), user)
    }

    /// Whether the user with this id is that name's one owner.
    pub fn is_sole_owner(&self, user: &[u8]) -> bool
        ensures { result ≡ is_only_one_of self.now.view.now.owners (Some user.now) }
    {
        self.is_owner(user) && is_each(self.view.owners.as_slice(), user)
    }
}

/// Whether one of the users has this id.
fn is_one(users: &[UserId], user: &[u8]) -> bool
    ensures { result ≡ list_any (same user.now) users.now }
{
    users.iter().any(|one| user == one.text().as_bytes())
}

/// Whether each of the users has this id.
fn is_each(users: &[UserId], user: &[u8]) -> bool
    ensures { result ≡ list_all (same user.now) users.now }
{
    users.iter().all(|one| user == one.text().as_bytes())
}
