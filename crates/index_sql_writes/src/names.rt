//! Changes of a name: its record, its owners, its yanks and its case.
ghost use Rattle.index_rules.specs.declared.change.Change.{Change};
ghost use Rattle.index_sql_writes.specs.ChangeAsks.{AreStepsOf};

use crate::step::{Deletion, Put, Step, Steps};
use index_names::{NormalName, Release};
use index_rules::{CaseRecord, Project, UserId};
use index_text::Text;

/// The name is held, with this record.
pub(crate) fn set_project<'a>(name: &'a NormalName, project: &'a Project) -> Steps<'a>
    ensures { AreStepsOf (Change.SetQuota name.now project.now) result }
{
    Steps::first(Step::Put(Put::Held(name, project)))
}

/// The name is held, with this record and this owner alone. The records of an earlier claim are deleted first.
pub(crate) fn claim<'a>(name: &'a NormalName, project: &'a Project, owner: &'a UserId) -> Steps<'a>
    ensures { AreStepsOf (Change.Claim name.now project.now owner.now) result }
{
    let text = name.text();
    Steps::first(Step::Delete(Deletion::Owners(text)))
        .then(Step::Delete(Deletion::Yanks(text)))
        .then(Step::Delete(Deletion::Case(text)))
        .then(Step::Put(Put::Held(name, project)))
        .then(Step::Put(Put::Owner(name, owner)))
}

/// The name is free. Its owners, its yanks and its case are deleted with its row.
pub(crate) fn free<'a>(name: &'a NormalName) -> Steps<'a>
    ensures { AreStepsOf (Change.Relinquish name.now) result }
{
    Steps::first(Step::Delete(Deletion::Name(name.text())))
}

/// The name is prohibited, and its files are deleted. Its owners, its yanks and its case are deleted with its old row.
pub(crate) fn prohibit<'a>(name: &'a NormalName) -> Steps<'a>
    ensures { AreStepsOf (Change.Prohibit name.now) result }
{
    let text = name.text();
    Steps::first(Step::Delete(Deletion::Bodies(text)))
        .then(Step::MarkFiles(text))
        .then(Step::Delete(Deletion::Name(text)))
        .then(Step::Put(Put::Prohibited(name)))
}

/// The user owns the name too.
pub(crate) fn add_owner<'a>(name: &'a NormalName, user: &'a UserId) -> Steps<'a>
    ensures { AreStepsOf (Change.AddOwner name.now user.now) result }
{
    Steps::first(Step::Put(Put::Owner(name, user))).then(Step::Delete(Deletion::Case(name.text())))
}

/// The user no longer owns the name.
pub(crate) fn remove_owner<'a>(name: &'a NormalName, user: &'a UserId) -> Steps<'a>
    ensures { AreStepsOf (Change.RemoveOwner name.now user.now) result }
{
    let name = name.text();
    Steps::first(Step::Delete(Deletion::Owner(name, user.text()))).then(Step::Delete(Deletion::Case(
        name,
    )))
}

/// The candidate alone owns the name.
pub(crate) fn transfer<'a>(name: &'a NormalName, candidate: &'a UserId) -> Steps<'a>
    ensures { AreStepsOf (Change.Transfer name.now candidate.now) result }
{
    Steps::first(Step::Delete(Deletion::Owners(name.text())))
        .then(Step::Put(Put::Owner(name, candidate)))
        .then(Step::Delete(Deletion::Case(name.text())))
}

/// The release is yanked, for this reason.
pub(crate) fn yank<'a>(name: &'a NormalName, release: &'a Release, reason: &'a Text) -> Steps<'a>
    ensures { AreStepsOf (Change.Yank name.now release.now reason.now) result }
{
    Steps::first(Step::Put(Put::Yank(name, release, reason.as_str()))).then(Step::Delete(
        Deletion::Case(name.text()),
    ))
}

/// The release is no longer yanked.
pub(crate) fn unyank<'a>(name: &'a NormalName, release: &'a Release) -> Steps<'a>
    ensures { AreStepsOf (Change.Unyank name.now release.now) result }
{
    let name = name.text();
    Steps::first(Step::Delete(Deletion::Yank(name, release.text()))).then(Step::Delete(
        Deletion::Case(name),
    ))
}

/// The name has this open case.
pub(crate) fn set_case<'a>(name: &'a NormalName, case: &'a CaseRecord) -> Steps<'a>
    ensures { AreStepsOf (Change.OpenCase name.now case.now) result }
{
    Steps::first(Step::Put(Put::Case(name, case)))
}

/// The name's case ends.
pub(crate) fn end_case<'a>(name: &'a NormalName) -> Steps<'a>
    ensures { AreStepsOf (Change.CloseCase name.now) result }
{
    Steps::first(Step::Delete(Deletion::Case(name.text())))
}
