//! The bytes of a file.
ghost use Rattle.std.specs.Prelude.{◌≡◌, is_ok, option_map, slice_get, IfOk, IfSome, IsOk, IsTrue, OnOk, Some};
ghost use Rattle.std.specs.List.{AllByRecursion};
ghost use Rattle.std.specs.FinMap.{get};
ghost use Rattle.sqlite.specs.Held.{state};
ghost use Rattle.sqlite.specs.State.{HasCleanDisk};
ghost use Rattle.index_sql_schema.specs.Records.{body_in};
ghost use Rattle.index_sql_schema.specs.Looks.{QueriesOnly};
ghost use Rattle.index_sql_schema.specs.Reasons.{FailsForReason};
ghost use Rattle.index_sql_schema.specs.RecordRows.{IsBodyRow};
ghost use Rattle.index_sql_reads.specs.Reads.{OwnedIsRead};
ghost use Rattle.index_sql_reads.specs.Finds.{FindsInTables, Gets};
ghost use Rattle.index_sql_reads.specs.ConnectionTables.{tables_of};
ghost use Rattle.index_sql_reads.specs.Sealed.{digest_in, IsBoundTo, IsDeclared};

use crate::columns::{blob, file_name};
use crate::from_row::FromRow;
use crate::lookups::find_file;
use index_digest::{Digest256, Sealed};
use index_names::FileName;
use index_rules::{Bytes, Fault};
use index_sql_schema::statement_texts::SELECT_BODY;
use index_sql_schema::{IndexConnection, look};
use sqlite::{Alter, Row, params};
use std::alloc::Global;

/// The bytes of a file, if any are stored.
///
/// # Errors
///
/// `OutOfMemory` if memory runs out, and `Store` if the store fails or the bytes don't have the digest that the file is
/// bound to.
pub fn find_body<S: Alter>(
    alloc: Global,
    conn: &mut IndexConnection<S>,
    file: &FileName,
) -> Result<Option<Sealed>, Fault>
    ensures found { HasCleanDisk (state S.Store conn.new) → IfOk result (λ it.
        it ≡ get (tables_of S.Store conn.old).bodies file.now) }
    ensures bound { HasCleanDisk (state S.Store conn.new)
        → IfOk result (IsBoundTo (digest_in (tables_of S.Store conn.old) file.now)) }
    ensures looks { QueriesOnly S.Store conn.old conn.new (is_ok result) }
    ensures reason { let T = tables_of S.Store conn.old in
        IsBoundTo (digest_in T file.now) (get T.bodies file.now)
        → FailsForReason S.Store conn.old conn.new result }
{
    let digest = find_digest(alloc, conn, file)?;
    let bytes = find_bytes(alloc, conn, file)?;
    seal(bytes, digest)
}

/// What is stored for the bytes of a file, with the digest that the file is bound to, if anything is stored. No digest
/// is tested.
///
/// # Errors
///
/// `OutOfMemory` if memory runs out, and `Store` if the store fails or no digest is declared for what is stored.
pub fn find_stored<S: Alter>(
    alloc: Global,
    conn: &mut IndexConnection<S>,
    file: &FileName,
) -> Result<Option<(Digest256, Vec<u8>)>, Fault>
    ensures found { HasCleanDisk (state S.Store conn.new) → IfOk result (λ it.
        option_map (λ kept. kept.1.items) it ≡ get (tables_of S.Store conn.old).bodies file.now) }
    ensures digest { HasCleanDisk (state S.Store conn.new) → IfOk result (λ it.
        IfSome it (λ kept. digest_in (tables_of S.Store conn.old) file.now ≡ Some kept.0)) }
    ensures looks { QueriesOnly S.Store conn.old conn.new (is_ok result) }
    // Rows come from a connection that is open.
    ensures opened { OnOk result (HasCleanDisk (state S.Store conn.new)
        → IsTrue (state S.Store conn.new).is_open) }
    ensures reason { let T = tables_of S.Store conn.old in
        IsDeclared (digest_in T file.now) (get T.bodies file.now)
        → FailsForReason S.Store conn.old conn.new result }
{
    let digest = find_digest(alloc, conn, file)?;
    let stored = find_bytes(alloc, conn, file)?;
    with_digest(stored, digest)
}

/// The digest that a file is bound to.
fn find_digest<S: Alter>(
    alloc: Global,
    conn: &mut IndexConnection<S>,
    file: &FileName,
) -> Result<Option<Digest256>, Fault>
    ensures { Gets S.Store conn.old conn.new result (λ T. digest_in T file.now) }
{
    match find_file(alloc, conn, file)? {
        Some(known) => Ok(Some(known.digest)),
        None => Ok(None),
    }
}

/// The bytes of a file, whatever their digest is.
fn find_bytes<S: Alter>(
    alloc: Global,
    conn: &mut IndexConnection<S>,
    file: &FileName,
) -> Result<Option<Vec<u8>>, Fault>
    ensures finds { FindsInTables S.Store conn.old conn.new result
        (λ T it. option_map (λ bytes. bytes.items) it ≡ get T.bodies file.now) }
    ensures opened { OnOk result (HasCleanDisk (state S.Store conn.new)
        → IsTrue (state S.Store conn.new).is_open) }
{
    let rows = look(conn, SELECT_BODY, params![file.text()])?;
    first_body(alloc, rows.as_slice())
}

/// The bytes in the first row, if there is a row.
fn first_body(alloc: Global, rows: &[Row]) -> Result<Option<Vec<u8>>, Fault>
    ensures { OwnedIsRead result (AllByRecursion IsBodyRow rows.now) (λ it.
        option_map (λ bytes. bytes.items) it ≡ option_map body_in (slice_get rows.now 0)) }
{
    match rows.first() {
        Some(row) => Ok(Some(body(alloc, row)?)),
        None => Ok(None),
    }
}

/// The bytes in a row of blobs. `Store` if the column holds no blob.
fn body(alloc: Global, row: &Row) -> Result<Vec<u8>, Fault>
    ensures { OwnedIsRead result (IsBodyRow row.now) (λ it. it.items ≡ body_in row.now) }
{
    Ok(Vec::from_slice(alloc, blob(row, 2)?)?)
}

/// A row of blobs: a file, with what is stored for it.
impl FromRow for (FileName, Bytes) {
    ghost use Rattle.index_sql_schema.specs.ShownRows.{stored_in};
    ghost use Rattle.index_sql_schema.specs.RecordRows.{IsStoredRow};

    ghost stands_for = { stored_in };

    ghost is_row = { IsStoredRow };

    fn from_row(alloc: Global, row: &Row) -> Result<(FileName, Bytes), Fault> {
        let file = file_name(alloc, row, 1)?;
        let stored = body(alloc, row)?;
        Ok((file, Bytes::new(stored)))
    }
}

/// The bytes with their digest. `Store` if they have another digest, or none is declared.
fn seal(bytes: Option<Vec<u8>>, declared: Option<Digest256>) -> Result<Option<Sealed>, Fault>
    ensures kept { IfOk result (λ it. it ≡ option_map (λ bytes. bytes.items) bytes) }
    ensures bound { IfOk result (IsBoundTo declared) }
    ensures complete { IsBoundTo declared (option_map (λ bytes. bytes.items) bytes) → IsOk result }
{
    match (bytes, declared) {
        (None, _) => Ok(None),
        (Some(bytes), Some(declared)) => match Sealed::new(bytes, declared) {
            Ok(sealed) => Ok(Some(sealed)),
            Err(_bytes) => Err(Fault::Store),
        },
        (Some(_bytes), None) => Err(Fault::Store),
    }
}

/// What is stored, with its digest. `Store` if none is declared.
fn with_digest(
    stored: Option<Vec<u8>>,
    declared: Option<Digest256>,
) -> Result<Option<(Digest256, Vec<u8>)>, Fault>
    ensures kept { IfOk result (λ it.
        option_map (λ kept. kept.1.items) it ≡ option_map (λ bytes. bytes.items) stored) }
    ensures digest { IfOk result (λ it. IfSome it (λ kept. declared ≡ Some kept.0)) }
    ensures complete { IsDeclared declared (option_map (λ bytes. bytes.items) stored)
        → IsOk result }
{
    match (stored, declared) {
        (None, _) => Ok(None),
        (Some(stored), Some(declared)) => Ok(Some((declared, stored))),
        (Some(_stored), None) => Err(Fault::Store),
    }
}
