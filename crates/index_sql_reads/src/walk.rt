//! Walks over the tables, which pass the rows of one query to a taker as they are read.
ghost use Rattle.std.specs.Prelude.{◌≡◌, ◌≢◌, ◌∷◌, [], not, IfErr, IsTrue, OnOk};
ghost use Rattle.std.specs.FinMap.{entries};
ghost use Rattle.sqlite.specs.Given.{IsPlain};
ghost use Rattle.sqlite.specs.Held.{state};
ghost use Rattle.sqlite.specs.Listing.{understood};
ghost use Rattle.sqlite.specs.State.{HasCleanDisk};
ghost use Rattle.sqlite.specs.Values.{bound};
ghost use Rattle.index_sql_schema.specs.Schema.{index_schema};
ghost use Rattle.index_sql_schema.specs.Faults.{fault_by};
ghost use Rattle.index_sql_schema.specs.Looks.{IsIndexConnection, QueriesOnly};
ghost use Rattle.index_sql_schema.specs.OnStore.{on_store};
ghost use Rattle.index_sql_schema.specs.Sure.{IsSure};
ghost use Rattle.index_rules.specs.TableRows.{file_rows_in, held_rows_in};
ghost use Rattle.index_rules.specs.Walks.{WalksTo, has_fault, of_rows, to_taker, walk_end_of};
ghost use Rattle.index_sql_reads.specs.Handed.{HandsQuery, HasHanded, QueryEndsForReason};
ghost use Rattle.index_sql_reads.specs.WalkReasons.{HandsRows};

use crate::from_row::FromRow;
use index_names::{FileName, NormalName};
use index_rules::{Bytes, FileRow, NameRow, Taker, WalkEnd};
use index_sql_schema::statement_texts::{SELECT_BODIES, SELECT_FILES, SELECT_HELD};
use index_sql_schema::{IndexConnection, fault_of};
use sqlite::types::ValueRef;
use sqlite::{Alter, Error, Row, Rows, params};
use std::alloc::Global;

/// Passes the held names to a taker one at a time, in byte order, until it wants no more. The tables stay as they are.
/// Whatever the store does, the taker is given some rows in this way, and nothing else is done to it.
///
/// # Errors
///
/// - `Stopped` exactly if the taker returned `false`.
/// - `OutOfMemory`: memory ran out.
/// - `Store`: the store fails, a row is invalid, or there are 18,446,744,073,709,551,615 rows or more.
pub fn walk_held<S: Alter, K: Taker<NameRow>>(
    alloc: Global,
    conn: &mut IndexConnection<S>,
    taker: &mut K,
) -> Result<(), WalkEnd>
    ensures { HandsRows held_rows_in (on_store S.Store conn.old conn.new)
        (to_taker K.takes K.stops taker.old taker.new) result }
{
    walk::<S, NameRow, K>(alloc, conn, SELECT_HELD, &[], taker)
}

/// Passes the undeleted files of a name to a taker one at a time, in byte order, until it wants no more. The tables
/// stay as they are. Whatever the store does, the taker is given some rows in this way, and nothing else is done to it.
///
/// # Errors
///
/// - `Stopped` exactly if the taker returned `false`.
/// - `OutOfMemory`: memory ran out.
/// - `Store`: the store fails, a row is invalid, or there are 18,446,744,073,709,551,615 rows or more.
pub fn walk_files<S: Alter, K: Taker<FileRow>>(
    alloc: Global,
    conn: &mut IndexConnection<S>,
    name: &NormalName,
    taker: &mut K,
) -> Result<(), WalkEnd>
    ensures { HandsRows (λ T. file_rows_in T name.now) (on_store S.Store conn.old conn.new)
        (to_taker K.takes K.stops taker.old taker.new) result }
{
    walk::<S, FileRow, K>(alloc, conn, SELECT_FILES, params![name.text()], taker)
}

/// Passes each file for which something is stored to a taker, with what is stored, one at a time, in byte order, until
/// it wants no more. No digest is tested. The tables stay as they are. Whatever the store does, the taker is given some
/// rows in this way, and nothing else is done to it.
///
/// # Errors
///
/// - `Stopped` exactly if the taker returned `false`.
/// - `OutOfMemory`: memory ran out.
/// - `Store`: the store fails, a row is invalid, or there are 18,446,744,073,709,551,615 rows or more.
pub fn walk_stored<S: Alter, K: Taker<(FileName, Bytes)>>(
    alloc: Global,
    conn: &mut IndexConnection<S>,
    taker: &mut K,
) -> Result<(), WalkEnd>
    ensures rows { HandsRows (λ T. entries T.bodies) (on_store S.Store conn.old conn.new)
        (to_taker K.takes K.stops taker.old taker.new) result }
    // Rows come from a connection that is open.
    ensures opened { OnOk result (HasCleanDisk (state S.Store conn.new)
        → IsTrue (state S.Store conn.new).is_open) }
{
    walk::<S, (FileName, Bytes), K>(alloc, conn, SELECT_BODIES, &[], taker)
}

/// Passes the rows that a query shows to a taker one at a time, until it wants no more. The tables stay as they are.
///
/// # Errors
///
/// - `Stopped` exactly if the taker stopped at a row.
/// - `OutOfMemory`: memory ran out.
/// - `Store`: the store fails, a row is invalid, or there are 18,446,744,073,709,551,615 rows or more.
pub(crate) fn walk<S: Alter, R: FromRow, K: Taker<R>>(
    alloc: Global,
    conn: &mut IndexConnection<S>,
    query: &str,
    params: &[ValueRef<'_>],
    taker: &mut K,
) -> Result<(), WalkEnd>
    requires plain { IsPlain (understood index_schema query.now) }
    ensures kept { IsIndexConnection S.Store conn.old }
    ensures handed { HandsQuery query.now (bound params.now) (on_store S.Store conn.old conn.new)
        (of_rows R.stands_for (to_taker K.takes K.stops taker.old taker.new)) result }
    ensures looks { QueriesOnly S.Store conn.old conn.new (not (has_fault result)) }
    ensures reason { IsSure query.now (bound params.now) → QueryEndsForReason R.is_row
        query.now (bound params.now) (on_store S.Store conn.old conn.new) result }
{
    let mut rows = match conn.conn.query(query, params) {
        Ok(rows) => rows,
        Err(error) => return Err(end_of(error)),
    };
    hand_all::<S, R, K>(alloc, &mut rows, taker)
}

/// Passes on the rows that are left of a query.
fn hand_all<S: Alter, R: FromRow, K: Taker<R>>(
    alloc: Global,
    rows: &mut Rows<'_, S>,
    taker: &mut K,
) -> Result<(), WalkEnd>
    ensures same_reference { rows.new.conn.ghost_name ≡ rows.old.conn.ghost_name }
    ensures handed { HasHanded R.is_row (on_store S.Store rows.old.conn.now rows.new.conn.now)
        (of_rows R.stands_for (to_taker K.takes K.stops taker.old taker.new)) result }
{
    // A proof needs a bound, and no table has as many rows. The proof names the loop by its label.
    'rows: for _given in 0..u64::MAX {
        match rows.next() {
            Ok(Some(row)) => hand(alloc, row, taker)?,
            Ok(None) => return Ok(()),
            Err(error) => return Err(end_of(error)),
        }
    }
    Err(WalkEnd::Store)
}

/// The end of a walk for an error of the database.
fn end_of(error: Error) -> WalkEnd
    ensures { result ≡ walk_end_of (fault_by error) }
{
    WalkEnd::from(fault_of(error))
}

/// Passes what a row stands for to a taker.
fn hand<R: FromRow, K: Taker<R>>(alloc: Global, row: &Row, taker: &mut K) -> Result<(), WalkEnd>
    ensures walks { let it = of_rows R.stands_for (to_taker K.takes K.stops taker.old taker.new) in
        WalksTo it (row.now ∷ []) result }
    ensures complete { R.is_row row.now → IfErr result (λ end. end ≢ WalkEnd.Store) }
{
    let value = R::from_row(alloc, row)?;
    if taker.take(&value) {
        Ok(())
    } else {
        Err(WalkEnd::Stopped)
    }
}
