//! A connection to an index, and one query of its tables.
ghost use Rattle.std.specs.Prelude.{◌≡◌, is_ok, IfOk, OnOk};
ghost use Rattle.sqlite.specs.Held.{state};
ghost use Rattle.sqlite.specs.Listing.{understood};
ghost use Rattle.sqlite.specs.Given.{IsPlain};
ghost use Rattle.sqlite.specs.State.{HasCleanDisk, Shown};
ghost use Rattle.sqlite.specs.Values.{bound};
ghost use Rattle.index_sql_schema.specs.Index.{IsIndex};
ghost use Rattle.index_sql_schema.specs.Schema.{index_schema};
ghost use Rattle.index_sql_schema.specs.Faults.{fault_by};
ghost use Rattle.index_sql_schema.specs.Looks.{QueriesOnly};
ghost use Rattle.index_sql_schema.specs.Reasons.{StoreForReason};
ghost use Rattle.index_sql_schema.specs.Sure.{IsSure};

use index_rules::Fault;
use sqlite::types::ValueRef;
use sqlite::{Alter, Connection, Error, ErrorCode, Row};
use std::marker::Model;

/// A connection to an index, outside a transaction. On a clean disk, if it is open, it is an index, all of it
/// committed. Contracts see the connection itself.
///
/// Code that changes its state has to leave such a connection again. It has no `Drop`.
pub struct IndexConnection<S: Alter> {
    pub conn: Connection<S>,
}

impl<S: Alter> Model for IndexConnection<S> {
    ghost use Rattle.sqlite.specs.Held.{Held, held_code};
    ghost use Rattle.index_sql_schema.specs.Looks.{IsIndexConnection};

    ghost Value = { Held S };

    ghost coded = { held_code S.code };

    ghost view = { λ it. it.conn };

    ghost invariant = { λ it. IsIndexConnection S.Store it.conn };
}

/// An error of the database as a fault: `OutOfMemory` if memory ran out, else `Store`.
pub fn fault_of(error: Error) -> Fault
    ensures { result ≡ fault_by error }
{
    match error {
        Error::SqliteFailure(ErrorCode::OutOfMemory) => Fault::OutOfMemory,
        _ => Fault::Store,
    }
}

/// The rows that a query shows. The tables stay as they are, whatever it returns.
///
/// # Errors
///
/// `OutOfMemory` if memory runs out, else `Store`. If the connection is still open, its database is as it was.
pub fn look<S: Alter>(
    conn: &mut IndexConnection<S>,
    text: &str,
    params: &[ValueRef<'_>],
) -> Result<Vec<Row>, Fault>
    requires plain { IsPlain (understood index_schema text.now) }
    ensures shown { HasCleanDisk (state S.Store conn.new) → IfOk result (λ rows. Shown text.now
        (bound params.now) (state S.Store conn.old) (state S.Store conn.new) rows.items) }
    ensures index { HasCleanDisk (state S.Store conn.new)
        → OnOk result (IsIndex (state S.Store conn.old).now) }
    ensures looks { QueriesOnly S.Store conn.old conn.new (is_ok result) }
    ensures reason { IsSure text.now (bound params.now) → HasCleanDisk (state S.Store conn.new)
        → StoreForReason S.Store conn.old conn.new result }
{
    let rows = match conn.conn.query_all(text, params) {
        Ok(rows) => rows,
        Err(error) => return Err(fault_of(error)),
    };
    Ok(rows)
}
