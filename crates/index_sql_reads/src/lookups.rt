//! Look-ups: one record each, or a list of them.
ghost use Rattle.std.specs.Prelude.{◌≡◌, IfSome, map, true};
ghost use Rattle.std.specs.FinMap.{get};
ghost use Rattle.index_rules.specs.Facts.{has_release_in, is_banned_in, is_undeleted_of_release, yank_in, IsBearer};
ghost use Rattle.index_rules.specs.Tables.{owners_in};
ghost use Rattle.index_rules.specs.TableRows.{file_rows_in, name_rows_in};
ghost use Rattle.index_rules.specs.Verdict.{is_held as is_held_lem};
ghost use Rattle.index_sql_reads.specs.Finds.{FindsInTables, Gets};
ghost use Rattle.index_sql_reads.specs.UsualNames.{in_file_name, usual_text};

use crate::from_row::{each, first, has_row};
use index_digest::Digest256;
use index_names::{FileName, NormalName, Release};
use index_rules::{
    CaseRecord, Fault, FileRecord, FileRow, NameRecord, NameRow, Owners, UserId, UserRecord,
};
use index_sql_schema::statement_texts::{
    SELECT_BAN, SELECT_BEARER, SELECT_CASE, SELECT_FILE, SELECT_FILES, SELECT_NAME, SELECT_NAMES,
    SELECT_OWNERS, SELECT_RELEASE, SELECT_USER, SELECT_YANK,
};
use index_sql_schema::{IndexConnection, look};
use index_text::Text;
use sqlite::{Alter, params};
use std::alloc::Global;

/// The record of a user.
pub(crate) fn find_user<S: Alter>(
    alloc: Global,
    conn: &mut IndexConnection<S>,
    user: &UserId,
) -> Result<Option<UserRecord>, Fault>
    ensures { Gets S.Store conn.old conn.new result (λ T. get T.users user.now) }
{
    let rows = look(conn, SELECT_USER, params![user.text()])?;
    first(alloc, rows.as_slice())
}

/// The user who has the token with this digest, with the user's record.
pub(crate) fn find_bearer<S: Alter>(
    alloc: Global,
    conn: &mut IndexConnection<S>,
    token: Digest256,
) -> Result<Option<(UserId, UserRecord)>, Fault>
    ensures { FindsInTables S.Store conn.old conn.new result (λ T. IsBearer T token) }
{
    let digest = token.to_bytes();
    let rows = look(conn, SELECT_BEARER, params![digest.as_slice()])?;
    first(alloc, rows.as_slice())
}

/// The record of a name that is not free.
pub(crate) fn find_name<S: Alter>(
    alloc: Global,
    conn: &mut IndexConnection<S>,
    name: &NormalName,
) -> Result<Option<NameRecord>, Fault>
    ensures { Gets S.Store conn.old conn.new result (λ T. get T.names name.now) }
{
    let rows = look(conn, SELECT_NAME, params![name.text()])?;
    first(alloc, rows.as_slice())
}

/// Whether a name is held.
///
/// # Errors
///
/// `OutOfMemory` if memory runs out, and `Store` if the store fails or the name's row is invalid.
pub fn is_held<S: Alter>(
    alloc: Global,
    conn: &mut IndexConnection<S>,
    name: &NormalName,
) -> Result<bool, Fault>
    ensures { Gets S.Store conn.old conn.new result (λ T. is_held_lem (get T.names name.now)) }
{
    let record = find_name(alloc, conn, name)?;
    Ok(matches!(record, Some(NameRecord::Held(_))))
}

/// The open case of a name.
pub(crate) fn find_case<S: Alter>(
    alloc: Global,
    conn: &mut IndexConnection<S>,
    name: &NormalName,
) -> Result<Option<CaseRecord>, Fault>
    ensures { Gets S.Store conn.old conn.new result (λ T. get T.cases name.now) }
{
    let rows = look(conn, SELECT_CASE, params![name.text()])?;
    first(alloc, rows.as_slice())
}

/// The owners of a name.
pub(crate) fn owners_of<S: Alter>(
    alloc: Global,
    conn: &mut IndexConnection<S>,
    name: &NormalName,
) -> Result<Owners, Fault>
    ensures { Gets S.Store conn.old conn.new result (λ T. owners_in T name.now) }
{
    let rows = look(conn, SELECT_OWNERS, params![name.text()])?;
    Ok(Owners::new(each(alloc, rows.as_slice())?))
}

/// The held names and the prohibited ones with their records.
///
/// # Errors
///
/// `OutOfMemory` if memory runs out, and `Store` if the store fails or a row is invalid.
pub fn names<S: Alter>(alloc: Global, conn: &mut IndexConnection<S>) -> Result<Vec<NameRow>, Fault>
    ensures { FindsInTables S.Store conn.old conn.new result (λ T it. it.items ≡ name_rows_in T) }
{
    let rows = look(conn, SELECT_NAMES, &[])?;
    each(alloc, rows.as_slice())
}

/// The undeleted files of a name.
///
/// # Errors
///
/// `OutOfMemory` if memory runs out, and `Store` if the store fails or a row is invalid.
pub fn files_of<S: Alter>(
    alloc: Global,
    conn: &mut IndexConnection<S>,
    name: &NormalName,
) -> Result<Vec<FileRow>, Fault>
    ensures { FindsInTables S.Store conn.old conn.new result
        (λ T rows. rows.items ≡ file_rows_in T name.now) }
{
    let rows = look(conn, SELECT_FILES, params![name.text()])?;
    each(alloc, rows.as_slice())
}

/// The record of a file that was once accepted.
pub(crate) fn find_file<S: Alter>(
    alloc: Global,
    conn: &mut IndexConnection<S>,
    file: &FileName,
) -> Result<Option<FileRecord>, Fault>
    ensures { Gets S.Store conn.old conn.new result (λ T. get T.files file.now) }
{
    let rows = look(conn, SELECT_FILE, params![file.text()])?;
    first(alloc, rows.as_slice())
}

/// Whether the file is banned.
pub(crate) fn is_banned<S: Alter>(
    conn: &mut IndexConnection<S>,
    file: &FileName,
) -> Result<bool, Fault>
    ensures { Gets S.Store conn.old conn.new result (λ T. is_banned_in T file.now) }
{
    let rows = look(conn, SELECT_BAN, params![file.text()])?;
    Ok(has_row(rows.as_slice()))
}

/// Why the release is yanked, if it is.
pub(crate) fn find_yank<S: Alter>(
    alloc: Global,
    conn: &mut IndexConnection<S>,
    name: &NormalName,
    release: &Release,
) -> Result<Option<Text>, Fault>
    ensures { Gets S.Store conn.old conn.new result (λ T. yank_in T name.now release.now) }
{
    let rows = look(conn, SELECT_YANK, params![name.text(), release.text()])?;
    first(alloc, rows.as_slice())
}

/// Whether the name has an undeleted file of the release. The source archive and the wheel for any system are looked up
/// first, by the names that build tools give them (PEP 625, PEP 427); only then are all files of the name read.
pub(crate) fn has_release<S: Alter>(
    alloc: Global,
    conn: &mut IndexConnection<S>,
    name: &NormalName,
    release: &Release,
) -> Result<bool, Fault>
    ensures { Gets S.Store conn.old conn.new result (λ T. has_release_in T name.now release.now) }
{
    if has_usual_file(alloc, conn, name, release, b".tar.gz")? {
        return Ok(true);
    }
    if has_usual_file(alloc, conn, name, release, b"-py3-none-any.whl")? {
        return Ok(true);
    }
    let found = has_any_file(conn, name, release)?;
    Ok(found)
}

/// Whether the file of the release whose name ends in this way exists and is undeleted.
fn has_usual_file<S: Alter>(
    alloc: Global,
    conn: &mut IndexConnection<S>,
    name: &NormalName,
    release: &Release,
    end: &[u8],
) -> Result<bool, Fault>
    ensures { FindsInTables S.Store conn.old conn.new result
        (λ T it. it ≡ true → has_release_in T name.now release.now ≡ true) }
{
    let Some(file) = usual_name(alloc, name, release, end) else {
        return Ok(false);
    };
    match find_file(alloc, conn, &file)? {
        Some(file) => Ok(is_undeleted_of(&file, name, release)),
        None => Ok(false),
    }
}

/// Whether the file is an undeleted one of this release of the name.
fn is_undeleted_of(file: &FileRecord, name: &NormalName, release: &Release) -> bool
    ensures { result ≡ is_undeleted_of_release name.now release.now file.now }
{
    file.is_undeleted && *name == file.project && *release == file.release
}

/// The name that build tools give the file of the release with this ending, or `None` if memory runs out.
fn usual_name(alloc: Global, name: &NormalName, release: &Release, end: &[u8]) -> Option<FileName>
    ensures { IfSome result (λ file. file ≡ usual_text name.now release.now end.now) }
{
    let mut text = with_underscores(alloc, name.text().as_bytes())?;
    text.push(b'-').ok()?;
    text.extend_from_slice(release.text().as_bytes()).ok()?;
    text.extend_from_slice(end).ok()?;
    FileName::read(alloc, text.as_slice()).ok()
}

/// A name with an underscore for each hyphen, or `None` if memory runs out.
fn with_underscores(alloc: Global, name: &[u8]) -> Option<Vec<u8>>
    ensures { IfSome result (λ text. text.items ≡ map in_file_name name.now) }
{
    let mut text = Vec::new(alloc);
    for &byte in name {
        text.push(if byte == b'-' { b'_' } else { byte }).ok()?;
    }
    Some(text)
}

/// Whether any file of the name is an undeleted one of the release.
fn has_any_file<S: Alter>(
    conn: &mut IndexConnection<S>,
    name: &NormalName,
    release: &Release,
) -> Result<bool, Fault>
    ensures { Gets S.Store conn.old conn.new result (λ T. has_release_in T name.now release.now) }
{
    let rows = look(conn, SELECT_RELEASE, params![name.text(), release.text()])?;
    Ok(has_row(rows.as_slice()))
}
