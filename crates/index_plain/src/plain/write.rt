//! The changes that calls write.
ghost use Rattle.index_plain.specs.Plain.{Makes};

use crate::plain::PlainBooks;
use index_rules::Change;
use std::alloc::{AllocError, Global};

impl PlainBooks {
    /// Makes a change, or leaves the tables as they were. What needs memory comes first: if memory runs out, what is
    /// written by then is undone, and the rest needs none.
    pub(crate) fn make(&mut self, alloc: Global, change: Change) -> Result<(), AllocError>
        ensures made { Makes change self.old self.new result }
    {
        match change {
            Change::AddUser { user, record } | Change::SetToken { user, record } => {
                self.accounts.put(alloc, &user, record)
            }
            change @ (Change::Upload { .. }
            | Change::Delete { .. }
            | Change::BanFile { .. }
            | Change::Yank { .. }
            | Change::Unyank { .. }) => self.make_of_release(alloc, change),
            change @ (Change::OpenCase { .. }
            | Change::RecordAttempt { .. }
            | Change::Transfer { .. }
            | Change::CloseCase { .. }
            | Change::AnswerCase { .. }) => self.make_of_case(alloc, change),
            change @ (Change::AddOwner { .. } | Change::RemoveOwner { .. }) => {
                self.make_of_owner(alloc, change)
            }
            change => self.make_of_name(alloc, change),
        }
    }
}
