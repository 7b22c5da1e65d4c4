//! Changes of files.
ghost use Rattle.std.specs.Prelude.{◌≡◌, true};
ghost use Rattle.index_rules.specs.declared.change.Change.TheVariants.{Upload, Delete, BanFile};
ghost use Rattle.index_sql_writes.specs.FileChanges.{is_of_file};
ghost use Rattle.index_sql_writes.specs.ChangeAsks.{AreStepsOf};

use crate::step::{Deletion, Put, Step, Steps};
use index_digest::Sealed;
use index_names::{FileName, NormalName};
use index_rules::{Change, FileRecord, Project};

/// The steps of a change of a file.
pub(crate) fn file_steps(change: &Change) -> Steps<'_>
    requires { is_of_file change.now ≡ true }
    ensures { AreStepsOf change.now result }
{
    match change {
        Change::Upload {
            name,
            project,
            file,
            record,
            body,
            ends_case,
        } => upload(name, project, file, record, body, *ends_case),
        Change::Delete {
            name,
            project,
            file,
            record,
        } => delete(name, project, file, record),
        Change::BanFile {
            name,
            project,
            file,
            record,
        } => ban(name, project, file, record),
        // By `requires` the change is one of a file.
        _ => unreachable!(),
    }
}

/// The name and the file have these records, and the bytes are stored. If `ends_case`, the name's case ends. A body
/// that exists is deleted first: the new one then replaces none, and is copied five times less.
fn upload<'a>(
    name: &'a NormalName,
    project: &'a Project,
    file: &'a FileName,
    known: &'a FileRecord,
    body: &'a Sealed,
    ends_case: bool,
) -> Steps<'a>
    ensures { let change = Upload name.now project.now file.now known.now body.now ends_case in
        AreStepsOf change result }
{
    let steps = Steps::first(Step::Put(Put::Held(name, project)))
        .then(Step::Put(Put::File(file, known)))
        .then(Step::Delete(Deletion::Body(file.text())))
        .then(Step::Put(Put::Body(file, body.bytes())));
    if ends_case {
        steps.then(Step::Delete(Deletion::Case(name.text())))
    } else {
        steps
    }
}

/// The name and the file have these records, and the bytes are deleted.
fn delete<'a>(
    name: &'a NormalName,
    project: &'a Project,
    file: &'a FileName,
    known: &'a FileRecord,
) -> Steps<'a>
    ensures { AreStepsOf (Delete name.now project.now file.now known.now) result }
{
    Steps::first(Step::Put(Put::Held(name, project)))
        .then(Step::Put(Put::File(file, known)))
        .then(Step::Delete(Deletion::Body(file.text())))
        .then(Step::Delete(Deletion::Case(name.text())))
}

/// The file is banned and has this record, and its bytes are deleted. The name has the record `project`, if there is
/// one.
fn ban<'a>(
    name: &'a NormalName,
    project: &'a Option<Project>,
    file: &'a FileName,
    known: &'a FileRecord,
) -> Steps<'a>
    ensures { AreStepsOf (BanFile name.now project.now file.now known.now) result }
{
    let put_file = Step::Put(Put::File(file, known));
    let steps = match project {
        Some(project) => Steps::first(Step::Put(Put::Held(name, project))).then(put_file),
        None => Steps::first(put_file),
    };
    steps
        .then(Step::Delete(Deletion::Body(file.text())))
        .then(Step::Put(Put::Ban(file)))
}
