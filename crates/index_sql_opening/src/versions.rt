//! The version in the table `meta`.
ghost use Rattle.std.specs.Prelude.{◌≡◌, true, false, is_ok, IsTrue, IfErr, IfOk, OnOk};
ghost use Rattle.sqlite.specs.Held.{state};
ghost use Rattle.sqlite.specs.State.{HasCleanDisk};
ghost use Rattle.sqlite_value.specs.Order.{column};
ghost use Rattle.index_sql_opening.specs.Making.{IsAtRest, RestsAs};
ghost use Rattle.index_sql_opening.specs.Versions.{FailsToReadVersion, VersionQueryAnswers, begun, first_number};
ghost use Rattle.index_sql_schema.specs.Looks.{QueriesOnly};
ghost use Rattle.index_sql_schema.specs.Records.{number_in};
ghost use Rattle.index_sql_schema.specs.Index.{version_in};
ghost use Rattle.index_sql_writes.specs.Transaction.{IsUncommitted};
ghost use Rattle.index_sql_schema.specs.FirstVersion.{IsAnyVersion};

use index_rules::Fault;
use index_sql_schema::fault_of;
use index_sql_schema::statement_texts::SELECT_VERSION;
use sqlite::types::ValueRef;
use sqlite::{Alter, Connection, Row, Transaction};

/// The version of an index of version 2 or 1, or `None` if `meta` has no row of it. A version that is not a number from
/// 0 to 18,446,744,073,709,551,615 counts as 0.
///
/// # Errors
///
/// `OutOfMemory` if memory runs out, and `Store` if the store fails.
pub fn read_version<S: Alter>(conn: &mut Connection<S>) -> Result<Option<u64>, Fault>
    requires { RestsAs S.Store (λ s. IsTrue s.is_open → IsAnyVersion s.now) conn.old }
    ensures found { HasCleanDisk (state S.Store conn.new)
        → IfOk result (λ version. version ≡ version_in (state S.Store conn.old).now.trees) }
    // No version is read of a connection that a fault has shut.
    ensures open { OnOk result (HasCleanDisk (state S.Store conn.new)
        → IsTrue (state S.Store conn.old).is_open) }
    ensures looks { QueriesOnly S.Store conn.old conn.new (is_ok result) }
    ensures reason { IfErr result (FailsToReadVersion S.Store conn.old conn.new) }
{
    match conn.query_all(SELECT_VERSION, &[]) {
        Ok(rows) => Ok(first_number(rows.as_slice())),
        Err(error) => Err(fault_of(error)),
    }
}

/// The version in a table `meta` that other programs may have made, as `read_version` returns it.
///
/// Nothing is known of what a query does to such a database, so it runs in a transaction that is dropped.
///
/// # Errors
///
/// `OutOfMemory` if memory runs out, and `Store` if the query fails otherwise.
pub fn told_version<S: Alter>(conn: &mut Connection<S>) -> Result<Option<u64>, Fault>
    requires rest { IsAtRest S.Store conn.old }
    ensures version { VersionQueryAnswers S.Store (begun conn.old) conn.new result }
    ensures looks { QueriesOnly S.Store conn.old conn.new false }
{
    let mut tx = conn.transaction();
    query_version(&mut tx)
}

/// The version in `meta`, inside a transaction.
fn query_version<S: Alter>(tx: &mut Transaction<'_, S>) -> Result<Option<u64>, Fault>
    requires inside { tx.old.conn.now.in_transaction ≡ true }
    ensures version { VersionQueryAnswers S.Store tx.old.conn.now tx.new.conn.now result }
    ensures uncommitted { IsUncommitted S.Store tx.old.conn tx.new.conn }
{
    match tx.query_all(SELECT_VERSION, &[]) {
        Ok(rows) => Ok(first_number(rows.as_slice())),
        Err(error) => Err(fault_of(error)),
    }
}

/// The number in the first row.
fn first_number(rows: &[Row]) -> Option<u64>
    ensures number { result ≡ first_number rows.now }
{
    match rows.first() {
        Some(row) => Some(number(row)),
        None => None,
    }
}

/// The number in the first column, or 0 if it has none from 0 on.
fn number(row: &Row) -> u64
    ensures number { result ≡ number_in (column row.now 0) }
{
    match row.get_ref(0) {
        Ok(ValueRef::Int(number)) => u64::try_from(number).unwrap_or(0),
        _ => 0,
    }
}
