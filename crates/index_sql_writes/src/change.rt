//! A change of the tables in one transaction.
ghost use Rattle.std.specs.Prelude.{◌≡◌, ◌<◌, false, length};
ghost use Rattle.index_rules.specs.Effect.{means};
ghost use Rattle.index_sql_writes.specs.Transaction.{IsInvisibleIfShut};
ghost use Rattle.index_sql_writes.specs.StepAsks.{FailsForAsks, asks_by};
ghost use Rattle.index_sql_writes.specs.Changed.{MakesChange, all_of};
ghost use Rattle.index_sql_writes.specs.ChangeAsks.{AreStepsOf, asks_of};

use crate::files::file_steps;
use crate::names::{
    add_owner, claim, end_case, free, prohibit, remove_owner, set_case, set_project, transfer,
    unyank, yank,
};
use crate::step::{Step, Steps, take_steps};
use crate::users::set_user;
use index_rules::Change;
use sqlite::{Alter, Connection, Error};

/// Makes the change in a transaction and commits it. A crash leaves what was committed before, or the whole change. A
/// connection that was shut does none of it.
///
/// # Errors
///
/// The error of the step or of the commit that failed: a fault of the store, a number that SQL can't hold, or what the
/// schema refuses. The tables are then as they were committed before.
pub fn make_change<S: Alter>(conn: &mut Connection<S>, change: &Change) -> Result<(), Error>
    requires { conn.old.in_transaction ≡ false }
    ensures made { MakesChange S.Store (means change.now) conn.old conn.new result }
    ensures shut { IsInvisibleIfShut S.Store conn.old conn.new }
    ensures reason { FailsForAsks S.Store (asks_of change.now) conn.old conn.new result }
{
    let steps = steps_of(change);
    commit_steps(conn, steps.as_slice())
}

/// Takes the steps in a transaction and commits it. After an error the tables are as they were committed before; a
/// crash leaves these, or the result of all steps. A connection that was shut does none of it.
fn commit_steps<S: Alter>(conn: &mut Connection<S>, steps: &[Step<'_>]) -> Result<(), Error>
    requires { conn.old.in_transaction ≡ false }
    ensures made { MakesChange S.Store (all_of steps.now) conn.old conn.new result }
    ensures shut { 0 < length steps.now → IsInvisibleIfShut S.Store conn.old conn.new }
    ensures reason { FailsForAsks S.Store (asks_by steps.now) conn.old conn.new result }
{
    let mut tx = conn.transaction();
    take_steps(&mut tx, steps)?;
    tx.commit()?;
    Ok(())
}

/// The steps that make the change. A row is put before those that refer to it.
fn steps_of(change: &Change) -> Steps<'_>
    ensures { AreStepsOf change.now result }
{
    match change {
        Change::AddUser { user, record } | Change::SetToken { user, record } => {
            set_user(user, record)
        }
        Change::SetQuota { name, project } => set_project(name, project),
        Change::Claim {
            name,
            project,
            owner,
        } => claim(name, project, owner),
        Change::AddOwner { name, user } => add_owner(name, user),
        Change::RemoveOwner { name, user } => remove_owner(name, user),
        Change::Upload { .. } | Change::Delete { .. } | Change::BanFile { .. } => {
            file_steps(change)
        }
        Change::Yank {
            name,
            release,
            reason,
        } => yank(name, release, reason),
        Change::Unyank { name, release } => unyank(name, release),
        Change::Relinquish { name } | Change::Allow { name } => free(name),
        Change::Prohibit { name } => prohibit(name),
        Change::OpenCase { name, case } | Change::RecordAttempt { name, case } => {
            set_case(name, case)
        }
        Change::Transfer { name, candidate } => transfer(name, candidate),
        Change::CloseCase { name } | Change::AnswerCase { name } => end_case(name),
    }
}
