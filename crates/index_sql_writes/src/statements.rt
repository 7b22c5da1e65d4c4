//! The statements of the steps: records that are put, and rows that are deleted or marked.
//!
//! A row that is put replaces the one with its key, if there is one. A number above 9,223,372,036,854,775,807, the
//! greatest that SQL can hold, is an error, and nothing is written. It is no error if there is no row to delete.
ghost use Rattle.std.specs.Prelude.{◌≡◌, ◌≤◌, ◌^◌, [], ◌∷◌, ℤ, pos, IfErr, IfOk, OnOk, option_map};
ghost use Rattle.std.specs.Option.{option_to_list};
ghost use Rattle.sqlite_value.specs.declared.value.Value.TheVariants.{Int};
ghost use Rattle.sqlite.specs.Held.{state};
ghost use Rattle.sqlite.specs.Rows.{Gives};
ghost use Rattle.sqlite.specs.State.{HasCleanDisk};
ghost use Rattle.sqlite.specs.Values.{bound};
ghost use Rattle.index_rules.specs.Projects.{FitsProject};
ghost use Rattle.index_sql_schema.specs.OnStore.{on_store};
ghost use Rattle.index_sql_schema.specs.RecordRows.{IsNameRow};
ghost use Rattle.index_sql_schema.specs.ShownRows.{file_shown};
ghost use Rattle.index_sql_schema.specs.StatementTexts.{put_name_text};
ghost use Rattle.index_sql_writes.specs.Asks.{AreFilesIn, SqlAnswersAsk, SqlDeletesBodies};
ghost use Rattle.index_sql_writes.specs.Asks.{CanAsk, CanAskFor, HasTooMuch, IsOutOfRange};
ghost use Rattle.index_sql_writes.specs.Asks.{Statement};
ghost use Rattle.index_sql_writes.specs.Statements.{delete_body_ask, project_numbers, put_user_ask};
ghost use Rattle.index_sql_writes.specs.Steps.{ChangesIndex, RunsStatement, RunsStep};
ghost use Rattle.index_sql_writes.specs.Steps.{StepDeletes, StepMakesChange, StepPuts};
ghost use Rattle.index_sql_writes.specs.Transaction.{WasOpenIfOk};
ghost use Rattle.index_sql_writes.specs.Writes.{deletes_body, deletes_shown, held_numbers};
ghost use Rattle.index_sql_writes.specs.Writes.{name_cells, name_of, puts_name, puts_user};
ghost use Rattle.index_sql_writes.specs.declared.step.Deletion.{Deletion};
ghost use Rattle.index_sql_writes.specs.declared.step.Put.{Put};
ghost use Rattle.index_sql_writes.specs.declared.step.Step.{Step};

use index_names::{FileName, NormalName, Release};
use index_rules::{FileRecord, Project, UserId, UserRecord};
use index_sql_schema::statement_texts::{
    DELETE_BODY, DELETE_CASE, DELETE_NAME, DELETE_OWNER, DELETE_OWNERS, DELETE_YANK, DELETE_YANKS,
    PUT_BAN, PUT_BODY, PUT_FILE, PUT_NAME, PUT_OWNER, PUT_USER, PUT_YANK, SELECT_NAMED,
    UPDATE_FILES,
};
use sqlite::types::ValueRef;
use sqlite::{Alter, Error, Row, Transaction, params};

/// Runs the statement. It does not return how many rows change.
pub fn run_statement<S: Alter>(
    tx: &mut Transaction<'_, S>,
    sql: &str,
    params: &[ValueRef<'_>],
) -> Result<(), Error>
    ensures { RunsStatement sql.now (bound params.now) (on_store S.Store tx.old tx.new) result }
{
    tx.execute(sql, params)?;
    Ok(())
}

// ---- records that are put

/// The columns of a name besides its texts, as SQL holds them.
#[derive(Clone, Copy)]
struct NameNumbers {
    /// 1 for a held name, and 2 for a prohibited one.
    state: i64,
    quota: i64,
    charge: i64,
    undeleted: i64,
    last_upload: Option<i64>,
}

/// The user has this record.
///
/// # Errors
///
/// The error of the statement.
pub fn put_user<S: Alter>(
    tx: &mut Transaction<'_, S>,
    user: &UserId,
    account: &UserRecord,
) -> Result<(), Error>
    ensures { StepMakesChange (puts_user user.now account.now) (put_user_ask user.now account.now)
        (on_store S.Store tx.old tx.new) result }
{
    let token = account.token.to_bytes();
    run_statement(
        tx,
        PUT_USER,
        params![user.text(), account.office, token.as_slice()],
    )
}

/// The name is held, with this record.
pub(crate) fn hold_name<S: Alter>(
    tx: &mut Transaction<'_, S>,
    name: &NormalName,
    project: &Project,
) -> Result<(), Error>
    ensures { StepPuts (Put.Held name.entry project.entry) (on_store S.Store tx.old tx.new) result }
{
    let numbers = numbers_of(project)?;
    put_name(tx, name, project.shown().as_str(), numbers)
}

/// The numbers of a held name. `IntegralValueOutOfRange` if one is more than SQL can hold.
fn numbers_of(project: &Project) -> Result<NameNumbers, Error>
    ensures numbers { IfOk result (λ it. it ≡ held_numbers project.now) }
    ensures fit { let it = project.now in
        OnOk result (FitsProject it.quota it.charge it.undeleted) }
    ensures too_much { IfErr result (IsOutOfRange (HasTooMuch (project_numbers project.now))) }
{
    let quota = sql_integer(project.quota())?;
    let charge = sql_integer(project.charge())?;
    let undeleted = sql_integer(project.undeleted())?;
    let last_upload = sql_integer_if_any(project.last_upload())?;
    Ok(NameNumbers {
        state: 1,
        quota,
        charge,
        undeleted,
        last_upload,
    })
}

/// The name is prohibited.
pub(crate) fn prohibit_name<S: Alter>(
    tx: &mut Transaction<'_, S>,
    name: &NormalName,
) -> Result<(), Error>
    ensures { StepPuts (Put.Prohibited name.entry) (on_store S.Store tx.old tx.new) result }
{
    let numbers = NameNumbers {
        state: 2,
        quota: 0,
        charge: 0,
        undeleted: 0,
        last_upload: None,
    };
    put_name(tx, name, "", numbers)
}

/// The row of a name.
fn put_name<S: Alter>(
    tx: &mut Transaction<'_, S>,
    name: &NormalName,
    shown: &str,
    numbers: NameNumbers,
) -> Result<(), Error>
    requires { (id : ℤ) → IsNameRow (Int id ∷ name_cells name.now shown.now numbers) }
    ensures { let cells = name_cells name.now shown.now numbers in
        StepMakesChange (puts_name name.now (name_of shown.now numbers))
        (Statement put_name_text cells) (on_store S.Store tx.old tx.new) result }
{
    run_statement(
        tx,
        PUT_NAME,
        params![
            name.text(),
            numbers.state,
            shown,
            numbers.quota,
            numbers.charge,
            numbers.undeleted,
            numbers.last_upload
        ],
    )
}

/// The user owns the name.
pub(crate) fn put_owner<S: Alter>(
    tx: &mut Transaction<'_, S>,
    name: &NormalName,
    user: &UserId,
) -> Result<(), Error>
    ensures { StepPuts (Put.Owner name.entry user.entry) (on_store S.Store tx.old tx.new) result }
{
    run_statement(tx, PUT_OWNER, params![name.text(), user.text()])
}

/// The file has this record.
pub(crate) fn put_file<S: Alter>(
    tx: &mut Transaction<'_, S>,
    file: &FileName,
    known: &FileRecord,
) -> Result<(), Error>
    ensures { StepPuts (Put.File file.entry known.entry) (on_store S.Store tx.old tx.new) result }
{
    let size = sql_integer(known.size)?;
    let digest = known.digest.to_bytes();
    run_statement(
        tx,
        PUT_FILE,
        params![
            file.text(),
            known.project.text(),
            known.release.text(),
            digest.as_slice(),
            size,
            known.requires_python.as_str(),
            known.is_undeleted
        ],
    )
}

/// The file has these bytes.
pub(crate) fn put_body<S: Alter>(
    tx: &mut Transaction<'_, S>,
    file: &FileName,
    body: &[u8],
) -> Result<(), Error>
    ensures { StepPuts (Put.Body file.entry body.entry) (on_store S.Store tx.old tx.new) result }
{
    run_statement(tx, PUT_BODY, params![file.text(), body])
}

/// The release is yanked, for this reason.
pub(crate) fn put_yank<S: Alter>(
    tx: &mut Transaction<'_, S>,
    name: &NormalName,
    release: &Release,
    reason: &str,
) -> Result<(), Error>
    ensures { StepPuts (Put.Yank name.entry release.entry reason.entry)
        (on_store S.Store tx.old tx.new) result }
{
    run_statement(tx, PUT_YANK, params![name.text(), release.text(), reason])
}

/// The file is banned.
pub(crate) fn put_ban<S: Alter>(tx: &mut Transaction<'_, S>, file: &FileName) -> Result<(), Error>
    ensures { StepPuts (Put.Ban file.entry) (on_store S.Store tx.old tx.new) result }
{
    run_statement(tx, PUT_BAN, params![file.text()])
}

// ---- rows that are deleted, or marked

/// The name is free: its owners, its yanks and its case are deleted with it.
pub(crate) fn delete_name<S: Alter>(tx: &mut Transaction<'_, S>, name: &str) -> Result<(), Error>
    ensures { StepDeletes (Deletion.Name name.entry) (on_store S.Store tx.old tx.new) result }
{
    run_statement(tx, DELETE_NAME, params![name])
}

/// The name has no owner.
pub(crate) fn delete_owners<S: Alter>(tx: &mut Transaction<'_, S>, name: &str) -> Result<(), Error>
    ensures { StepDeletes (Deletion.Owners name.entry) (on_store S.Store tx.old tx.new) result }
{
    run_statement(tx, DELETE_OWNERS, params![name])
}

/// The user does not own the name.
pub(crate) fn delete_owner<S: Alter>(
    tx: &mut Transaction<'_, S>,
    name: &str,
    user: &str,
) -> Result<(), Error>
    ensures { StepDeletes (Deletion.Owner name.entry user.entry)
        (on_store S.Store tx.old tx.new) result }
{
    run_statement(tx, DELETE_OWNER, params![name, user])
}

/// No release of the name is yanked.
pub(crate) fn delete_yanks<S: Alter>(tx: &mut Transaction<'_, S>, name: &str) -> Result<(), Error>
    ensures { StepDeletes (Deletion.Yanks name.entry) (on_store S.Store tx.old tx.new) result }
{
    run_statement(tx, DELETE_YANKS, params![name])
}

/// The release is not yanked.
pub(crate) fn delete_yank<S: Alter>(
    tx: &mut Transaction<'_, S>,
    name: &str,
    release: &str,
) -> Result<(), Error>
    ensures { StepDeletes (Deletion.Yank name.entry release.entry)
        (on_store S.Store tx.old tx.new) result }
{
    run_statement(tx, DELETE_YANK, params![name, release])
}

/// The name has no open case.
pub(crate) fn delete_case<S: Alter>(tx: &mut Transaction<'_, S>, name: &str) -> Result<(), Error>
    ensures { StepDeletes (Deletion.Case name.entry) (on_store S.Store tx.old tx.new) result }
{
    run_statement(tx, DELETE_CASE, params![name])
}

/// The file has no bytes.
pub(crate) fn delete_body<S: Alter>(tx: &mut Transaction<'_, S>, file: &str) -> Result<(), Error>
    ensures { StepDeletes (Deletion.Body file.entry) (on_store S.Store tx.old tx.new) result }
{
    run_statement(tx, DELETE_BODY, params![file])
}

/// Each file of the name is deleted.
pub(crate) fn mark_files<S: Alter>(tx: &mut Transaction<'_, S>, name: &str) -> Result<(), Error>
    ensures { RunsStep (Step.MarkFiles name.entry) (on_store S.Store tx.old tx.new) result }
{
    run_statement(tx, UPDATE_FILES, params![name])
}

// ---- the bytes of all files of a name

/// The files of the name have no bytes. One statement finds the files, and one for each of them finds its bytes by
/// their key, so the files of other names are not read.
pub(crate) fn delete_bodies<S: Alter>(tx: &mut Transaction<'_, S>, name: &str) -> Result<(), Error>
    ensures { StepDeletes (Deletion.Bodies name.entry) (on_store S.Store tx.old tx.new) result }
{
    let rows = files_named(tx, name)?;
    delete_each(tx, rows.as_slice())?;
    Ok(())
}

/// The files of the name, the deleted ones too, each in a row.
fn files_named<S: Alter>(tx: &mut Transaction<'_, S>, name: &str) -> Result<Vec<Row>, Error>
    ensures looked { ChangesIndex (λ T. T) CanAsk Gives (on_store S.Store tx.old tx.new) result }
    ensures opened { WasOpenIfOk S.Store tx.old.conn.now tx.new.conn.now result }
    ensures files { HasCleanDisk (state S.Store tx.new.conn.now)
        → IfOk result (λ rows. AreFilesIn (state S.Store tx.old.conn.now) name.now rows.items) }
{
    match tx.query_all(SELECT_NAMED, params![name]) {
        Ok(rows) => Ok(rows),
        Err(error) => Err(error),
    }
}

/// The files that these rows show have no bytes.
fn delete_each<S: Alter>(tx: &mut Transaction<'_, S>, rows: &[Row]) -> Result<(), Error>
    ensures { ChangesIndex (deletes_shown rows.now) (CanAskFor rows.now)
        (SqlDeletesBodies rows.now) (on_store S.Store tx.old tx.new) result }
{
    for row in rows {
        delete_shown(tx, row)?;
    }
    Ok(())
}

/// The file that a row shows has no bytes.
fn delete_shown<S: Alter>(tx: &mut Transaction<'_, S>, row: &Row) -> Result<(), Error>
    ensures { let file = file_shown row.now in ChangesIndex (deletes_body file)
        (CanAskFor (row.now ∷ [])) (SqlAnswersAsk (delete_body_ask file))
        (on_store S.Store tx.old tx.new) result }
{
    let file: String = row.get(0)?;
    delete_body(tx, file.as_str())
}

// ---- numbers as SQL holds them

/// The number as SQL holds it. `IntegralValueOutOfRange` if it is above the greatest.
pub(crate) fn sql_integer(number: u64) -> Result<i64, Error>
    ensures whole { IfOk result (λ it. it ≡ pos number) }
    ensures too_much { IfErr result (IsOutOfRange (2 ^ 63 ≤ number)) }
{
    match i64::try_from(number) {
        Ok(it) => Ok(it),
        Err(_) => Err(Error::IntegralValueOutOfRange(0)),
    }
}

/// The number as SQL holds it, or `None` for `None`. `IntegralValueOutOfRange` if it is above the greatest.
pub(crate) fn sql_integer_if_any(number: Option<u64>) -> Result<Option<i64>, Error>
    ensures whole { IfOk result (λ it. it ≡ option_map pos number) }
    ensures too_much { IfErr result (IsOutOfRange (HasTooMuch (option_to_list number))) }
{
    match number {
        Some(number) => Ok(Some(sql_integer(number)?)),
        None => Ok(None),
    }
}
