//! Rows of an answer, read as records. An invalid row is `Fault::Store`; if there is no memory for what the record
//! owns, that is `Fault::OutOfMemory`. Each column stands in the place that it has in its table, behind the rowid.
ghost use Rattle.std.specs.Prelude.{◌≡◌, is_some, map, option_map, slice_get, IfOk, IsTrue};
ghost use Rattle.std.specs.List.{AllByRecursion};
ghost use Rattle.sqlite_value.specs.Order.{column};
ghost use Rattle.index_sql_schema.specs.Records.{kind_by, name_in, number_in, project_in, tally_in, user_in};
ghost use Rattle.index_sql_schema.specs.RecordRows.{IsBareRow, IsKind, IsNameRow, IsProjectRow, IsTallyRow, IsUserRow};
ghost use Rattle.index_sql_reads.specs.ProhibitedRow.{empty_project};
ghost use Rattle.index_sql_reads.specs.Reads.{OwnedIsRead, ValueIsRead};

use crate::columns::{
    digest, file_name, flag, is_empty_text, is_null, is_zero, name, number, number_if_any, release,
    text, text_if_any, user,
};
use index_retention::{CaseKind, CaseState};
use index_rules::{
    CaseRecord, Fault, FileRecord, FileRow, NameRecord, NameRow, Project, UserId, UserRecord,
};
use index_text::Text;
use sqlite::Row;
use std::alloc::{AllocError, Global};

/// A value that a row of an answer stands for.
pub trait FromRow: Drop {
    ghost use Rattle.sqlite_value.specs.Order.{Row as RowData};

    /// The value that a row stands for.
    ghost stands_for: { RowData → Self };

    /// The rows that stand for a value.
    ghost is_row: { RowData → Type 0 };

    /// The value of the row. `Store` if the row is invalid.
    fn from_row(alloc: Global, row: &Row) -> Result<Self, Fault>
        ensures { OwnedIsRead result (is_row row.now) (λ it. it ≡ stands_for row.now) };
}

/// The value of the first row, if there is a row.
pub fn first<T: FromRow>(alloc: Global, rows: &[Row]) -> Result<Option<T>, Fault>
    ensures { OwnedIsRead result (AllByRecursion T.is_row rows.now)
        (λ it. it ≡ option_map T.stands_for (slice_get rows.now 0)) }
{
    match rows.first() {
        Some(row) => Ok(Some(T::from_row(alloc, row)?)),
        None => Ok(None),
    }
}

/// The values of all rows.
pub fn each<T: FromRow>(alloc: Global, rows: &[Row]) -> Result<Vec<T>, Fault>
    ensures { OwnedIsRead result (AllByRecursion T.is_row rows.now)
        (λ all. all.items ≡ map T.stands_for rows.now) }
{
    let mut all = Vec::new(alloc);
    for row in rows {
        let value = T::from_row(alloc, row)?;
        if let Err(error) = all.push(value) {
            return Err(AllocError::from(error).into());
        }
    }
    Ok(all)
}

/// Whether there is a row.
pub fn has_row(rows: &[Row]) -> bool
    ensures { result ≡ is_some (slice_get rows.now 0) }
{
    rows.first().is_some()
}

impl FromRow for UserRecord {
    ghost stands_for = { user_in };

    ghost is_row = { IsUserRow };

    fn from_row(_alloc: Global, row: &Row) -> Result<UserRecord, Fault> {
        user_record(row)
    }
}

/// The record in a row of users, read without an allocation. `Store` if the office's column isn't 0 or 1, or the
/// token's isn't a blob of 32 bytes.
fn user_record(row: &Row) -> Result<UserRecord, Fault>
    ensures { ValueIsRead result (IsUserRow row.now) (λ it. it ≡ user_in row.now) }
{
    let office = flag(row, 2)?;
    let token = digest(row, 3)?;
    Ok(UserRecord { office, token })
}

/// A row of users, with its user.
impl FromRow for (UserId, UserRecord) {
    ghost use Rattle.index_sql_schema.specs.ShownRows.{account_in};
    ghost use Rattle.index_sql_schema.specs.RecordRows.{IsAccountRow};

    ghost stands_for = { account_in };

    ghost is_row = { IsAccountRow };

    fn from_row(alloc: Global, row: &Row) -> Result<(UserId, UserRecord), Fault> {
        let account = user_record(row)?;
        let user = user(alloc, row, 1)?;
        Ok((user, account))
    }
}

/// The one column that is shown of a row of owners.
impl FromRow for UserId {
    ghost use Rattle.index_sql_schema.specs.ShownRows.{user_shown};
    ghost use Rattle.index_sql_schema.specs.RecordRows.{IsOwnerRow};

    ghost stands_for = { user_shown };

    ghost is_row = { IsOwnerRow };

    fn from_row(alloc: Global, row: &Row) -> Result<UserId, Fault> {
        user(alloc, row, 0)
    }
}

impl FromRow for NameRecord {
    ghost stands_for = { name_in };

    ghost is_row = { IsNameRow };

    fn from_row(alloc: Global, row: &Row) -> Result<NameRecord, Fault> {
        name_record(alloc, row)
    }
}

/// The record in a row of names. `Store` if the state is neither 1 (held) nor 2 (prohibited), if the numbers of a held
/// name are invalid together, or if a prohibited one has any.
fn name_record(alloc: Global, row: &Row) -> Result<NameRecord, Fault>
    ensures read { OwnedIsRead result (IsNameRow row.now) (λ it. it ≡ name_in row.now) }
    ensures bare { IfOk result (λ it. it ≡ NameRecord.Prohibited
        → project_in row.now ≡ empty_project) }
{
    match number(row, 2)? {
        1 => Ok(NameRecord::Held(project(alloc, row)?)),
        2 if is_empty_project(row) => Ok(NameRecord::Prohibited),
        _ => Err(Fault::Store),
    }
}

/// The record of a held name in its row. `Store` if its numbers are invalid together.
fn project(alloc: Global, row: &Row) -> Result<Project, Fault>
    ensures { OwnedIsRead result (IsProjectRow row.now) (λ it. it ≡ project_in row.now) }
{
    let quota = number(row, 4)?;
    let charge = number(row, 5)?;
    let undeleted = number(row, 6)?;
    let last_upload = number_if_any(row, 7)?;
    let shown = text(alloc, row, 3)?;
    match Project::from_parts(shown, quota, charge, undeleted, last_upload) {
        Some(project) => Ok(project),
        None => Err(Fault::Store),
    }
}

/// Whether the row of a name has no values of a held one.
fn is_empty_project(row: &Row) -> bool
    ensures bare { IsTrue result → project_in row.now ≡ empty_project }
    ensures complete { IsBareRow row.now → IsTrue result }
{
    is_empty_text(row, 3)
        && is_zero(row, 4)
        && is_zero(row, 5)
        && is_zero(row, 6)
        && is_null(row, 7)
}

/// A row of names, with its name.
impl FromRow for NameRow {
    ghost use Rattle.index_sql_schema.specs.ShownRows.{name_row_in};
    ghost use Rattle.index_sql_schema.specs.RecordRows.{IsNamedRow};

    ghost stands_for = { name_row_in };

    ghost is_row = { IsNamedRow };

    fn from_row(alloc: Global, row: &Row) -> Result<NameRow, Fault> {
        let name = name(alloc, row, 1)?;
        let record = name_record(alloc, row)?;
        Ok(NameRow { name, record })
    }
}

impl FromRow for CaseRecord {
    ghost use Rattle.index_sql_schema.specs.Records.{case_in};
    ghost use Rattle.index_sql_schema.specs.RecordRows.{IsCaseRow};

    ghost stands_for = { case_in };

    ghost is_row = { IsCaseRow };

    fn from_row(alloc: Global, row: &Row) -> Result<CaseRecord, Fault> {
        let kind = case_kind(row)?;
        let opened = number(row, 7)?;
        let state = case_state(row)?;
        let candidate = user(alloc, row, 3)?;
        let contact = text(alloc, row, 4)?;
        let work = text(alloc, row, 5)?;
        let why = text(alloc, row, 6)?;
        Ok(CaseRecord {
            kind,
            candidate,
            contact,
            work,
            why,
            opened,
            state,
        })
    }
}

/// The kind of a case by the number in its row; any other number is a fault of the store.
fn case_kind(row: &Row) -> Result<CaseKind, Fault>
    ensures { ValueIsRead result (IsKind (column row.now 2))
        (λ it. it ≡ kind_by (number_in (column row.now 2))) }
{
    match number(row, 2)? {
        1 => Ok(CaseKind::Continue),
        2 => Ok(CaseKind::Reuse),
        _ => Err(Fault::Store),
    }
}

/// The attempts in a row of cases. `Store` if more than 1,000 are recorded, if more are sent than recorded, or if there
/// is a first moment although none was sent, or none although one was.
fn case_state(row: &Row) -> Result<CaseState, Fault>
    ensures { ValueIsRead result (IsTallyRow row.now) (λ it. it ≡ tally_in row.now) }
{
    let attempts = number(row, 8)?;
    let sent = number(row, 9)?;
    let profile = flag(row, 10)?;
    let author = flag(row, 11)?;
    let pages = flag(row, 12)?;
    let first = number_if_any(row, 13)?;
    match CaseState::from_parts(attempts, sent, profile, author, pages, first) {
        Some(state) => Ok(state),
        None => Err(Fault::Store),
    }
}

impl FromRow for FileRecord {
    ghost use Rattle.index_sql_schema.specs.Records.{file_in};
    ghost use Rattle.index_sql_schema.specs.RecordRows.{IsFileRow};

    ghost stands_for = { file_in };

    ghost is_row = { IsFileRow };

    fn from_row(alloc: Global, row: &Row) -> Result<FileRecord, Fault> {
        let digest = digest(row, 4)?;
        let size = number(row, 5)?;
        let is_undeleted = flag(row, 7)?;
        let project = name(alloc, row, 2)?;
        let release = release(alloc, row, 3)?;
        let requires_python = text(alloc, row, 6)?;
        Ok(FileRecord {
            project,
            release,
            digest,
            size,
            requires_python,
            is_undeleted,
        })
    }
}

/// A row of files with its name, and behind it the reason of its yank, or NULL.
impl FromRow for FileRow {
    ghost use Rattle.index_sql_schema.specs.ShownRows.{file_row_shown};
    ghost use Rattle.index_sql_schema.specs.RecordRows.{IsListedRow};

    ghost stands_for = { file_row_shown };

    ghost is_row = { IsListedRow };

    fn from_row(alloc: Global, row: &Row) -> Result<FileRow, Fault> {
        let digest = digest(row, 4)?;
        let size = number(row, 5)?;
        let file = file_name(alloc, row, 1)?;
        let release = release(alloc, row, 3)?;
        let requires_python = text(alloc, row, 6)?;
        let yanked = text_if_any(alloc, row, 8)?;
        Ok(FileRow {
            file,
            release,
            digest,
            size,
            requires_python,
            yanked,
        })
    }
}

/// The reason in a row of yanks. It may be empty.
impl FromRow for Text {
    ghost use Rattle.index_sql_schema.specs.Records.{reason_in};
    ghost use Rattle.index_sql_schema.specs.RecordRows.{IsYankRow};

    ghost stands_for = { reason_in };

    ghost is_row = { IsYankRow };

    fn from_row(alloc: Global, row: &Row) -> Result<Text, Fault> {
        text(alloc, row, 3)
    }
}
