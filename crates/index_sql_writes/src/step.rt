//! The steps of a change.
ghost use Rattle.std.specs.Prelude.{◌≡◌, ◌<◌, [], ◌∷◌, ◌++◌, length};
ghost use Rattle.index_sql_schema.specs.OnStore.{on_store};
ghost use Rattle.index_sql_writes.specs.Transaction.{WasOpenIfOk};
ghost use Rattle.index_sql_writes.specs.Asks.{CanAsk, SqlAnswersEachAsk};
ghost use Rattle.index_sql_writes.specs.Steps.{ChangesIndex, RunsStep, StepDeletes, StepPuts};
ghost use Rattle.index_sql_writes.specs.StepAsks.{asks_by};
ghost use Rattle.index_sql_writes.specs.Changed.{all_of};

use crate::put_case::put_case;
use crate::statements::{
    delete_bodies, delete_body, delete_case, delete_name, delete_owner, delete_owners, delete_yank,
    delete_yanks, hold_name, mark_files, prohibit_name, put_ban, put_body, put_file, put_owner,
    put_user, put_yank,
};
use index_names::{FileName, NormalName, Release};
use index_rules::{CaseRecord, FileRecord, Project, UserId, UserRecord};
use sqlite::{Alter, Error, Transaction};
use std::marker::Model;

/// A record that is put at its key, in place of an earlier one.
#[derive(Clone, Copy)]
pub(crate) enum Put<'a> {
    /// The user has this record.
    User(&'a UserId, &'a UserRecord),
    /// The name is held, with this record.
    Held(&'a NormalName, &'a Project),
    /// The name is prohibited.
    Prohibited(&'a NormalName),
    /// The user owns the name.
    Owner(&'a NormalName, &'a UserId),
    /// The file has this record.
    File(&'a FileName, &'a FileRecord),
    /// The file has these bytes.
    Body(&'a FileName, &'a [u8]),
    /// The name has this open case.
    Case(&'a NormalName, &'a CaseRecord),
    /// The file is banned.
    Ban(&'a FileName),
    /// The release of the name is yanked, for this reason.
    Yank(&'a NormalName, &'a Release, &'a str),
}

/// What is deleted, if it exists.
#[derive(Clone, Copy)]
pub(crate) enum Deletion<'a> {
    /// The name is free: its owners, its yanks and its case are deleted with it.
    Name(&'a str),
    /// The name has no owner.
    Owners(&'a str),
    /// The user does not own the name.
    Owner(&'a str, &'a str),
    /// No release of the name is yanked.
    Yanks(&'a str),
    /// The release is not yanked.
    Yank(&'a str, &'a str),
    /// The name has no open case.
    Case(&'a str),
    /// The file has no bytes.
    Body(&'a str),
    /// The files of the name have no bytes.
    Bodies(&'a str),
}

/// One step of a change.
#[derive(Clone, Copy)]
pub(crate) enum Step<'a> {
    Put(Put<'a>),
    Delete(Deletion<'a>),
    /// Each file of the name is deleted.
    MarkFiles(&'a str),
}

/// The most steps of a change.
const MOST_STEPS: usize = 5;

/// One to five steps. Contracts see their list.
#[derive(Drop)]
pub(crate) struct Steps<'a> {
    /// The places from `count` on hold the first step again, and are never taken.
    steps: [Step<'a>; MOST_STEPS],
    count: usize,
}

impl<'a> Model for Steps<'a> {
    ghost use Rattle.std.specs.Prelude.{◌≡◌, ◌<◌, ◌≤◌, List, length, take};
    ghost use Rattle.index_sql_writes.specs.declared.step.Step.{Step};
    ghost use Rattle.index_sql_writes.specs.declared.step.TheConstants.{MOST_STEPS};

    ghost Value = { List Step };

    ghost view = { λ s. take s.count s.steps };

    ghost invariant = { λ s. (0 < s.count) × (s.count ≤ MOST_STEPS)
        × (length s.steps ≡ MOST_STEPS) };
}

impl<'a> Steps<'a> {
    /// The first step.
    pub(crate) fn first(step: Step<'a>) -> Steps<'a>
        ensures { result ≡ step.entry ∷ [] }
    {
        Steps {
            steps: [step; MOST_STEPS],
            count: 1,
        }
    }

    /// One step more.
    pub(crate) fn then(self, step: Step<'a>) -> Steps<'a>
        requires { length self < MOST_STEPS }
        ensures { result ≡ self.entry ++ step.entry ∷ [] }
    {
        let Steps { mut steps, count } = self;
        let places = steps.as_mut_slice();
        places[count] = step;
        Steps {
            steps,
            count: count + 1,
        }
    }

    /// The steps in their order.
    pub(crate) fn as_slice(&self) -> &[Step<'a>]
        ensures steps { result.now ≡ self.now }
        ensures some { 0 < length result.now }
    {
        &self.steps[..self.count]
    }
}

/// Puts a record.
fn take_put<S: Alter>(tx: &mut Transaction<'_, S>, put: Put<'_>) -> Result<(), Error>
    ensures { StepPuts put.entry (on_store S.Store tx.old tx.new) result }
{
    match put {
        Put::User(user, account) => put_user(tx, user, account),
        Put::Held(name, project) => hold_name(tx, name, project),
        Put::Prohibited(name) => prohibit_name(tx, name),
        Put::Owner(name, user) => put_owner(tx, name, user),
        Put::File(file, known) => put_file(tx, file, known),
        Put::Body(file, body) => put_body(tx, file, body),
        Put::Case(name, case) => put_case(tx, name, case),
        Put::Ban(file) => put_ban(tx, file),
        Put::Yank(name, release, reason) => put_yank(tx, name, release, reason),
    }
}

/// Deletes what the deletion names.
fn take_deletion<S: Alter>(tx: &mut Transaction<'_, S>, deletion: Deletion<'_>) -> Result<(), Error>
    ensures { StepDeletes deletion.entry (on_store S.Store tx.old tx.new) result }
{
    match deletion {
        Deletion::Name(name) => delete_name(tx, name),
        Deletion::Owners(name) => delete_owners(tx, name),
        Deletion::Owner(name, user) => delete_owner(tx, name, user),
        Deletion::Yanks(name) => delete_yanks(tx, name),
        Deletion::Yank(name, release) => delete_yank(tx, name, release),
        Deletion::Case(name) => delete_case(tx, name),
        Deletion::Body(file) => delete_body(tx, file),
        Deletion::Bodies(name) => delete_bodies(tx, name),
    }
}

/// Takes one step.
fn take_step<S: Alter>(tx: &mut Transaction<'_, S>, step: &Step<'_>) -> Result<(), Error>
    ensures { RunsStep step.now (on_store S.Store tx.old tx.new) result }
{
    match *step {
        Step::Put(put) => take_put(tx, put),
        Step::Delete(deletion) => take_deletion(tx, deletion),
        Step::MarkFiles(name) => mark_files(tx, name),
    }
}

/// Takes the steps in turn, up to the first that fails.
pub(crate) fn take_steps<S: Alter>(
    tx: &mut Transaction<'_, S>,
    steps: &[Step<'_>],
) -> Result<(), Error>
    ensures taken { ChangesIndex (all_of steps.now) CanAsk (SqlAnswersEachAsk (asks_by steps.now))
        (on_store S.Store tx.old tx.new) result }
    ensures opened { 0 < length steps.now →
        WasOpenIfOk S.Store tx.old.conn.now tx.new.conn.now result }
{
    for step in steps {
        take_step(tx, step)?;
    }
    Ok(())
}
