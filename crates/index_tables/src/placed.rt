//! Opening an index of version 3, whose bodies are places in a volume.
ghost use Rattle.std.specs.Prelude.{◌≡◌, false, IfOk, IfErr, IsTrue};
ghost use Rattle.sqlite.specs.Held.{state};
ghost use Rattle.index_sql_opening.specs.Making.{IsAtRest, RestsAs};
ghost use Rattle.index_sql_schema.specs.Index.{IsIndex};
ghost use Rattle.index_tables.specs.Opened.{RefusesFound};
ghost use Rattle.index_tables.specs.Placed.{IsNotPlaced, TakesPlaced, placed_refusal};

use crate::books::SqlBooks;
use crate::opening::{Unopened, open_fault_of};
use crate::version::Version3;
use index_rules::OpenFault;
use index_sql_opening::{expose_invariants, has_meta, is_ours, read_version, told_version};
use index_sql_schema::IndexConnection;
use sqlite::{Alter, Connection};
use std::alloc::{AllocError, Global};
use std::marker::PhantomData;

impl<S: Alter> SqlBooks<S, Version3> {
    /// Opens an index of version 3 as it is. What is stored for a file are places in a volume.
    ///
    /// # Errors
    ///
    /// A refused database is as it was.
    ///
    /// - `NotAnIndex`: there is no table `meta` with the columns of the version, or no version in it.
    /// - `OtherVersion`: the version is another than 3.
    /// - `OutOfMemory`: memory ran out.
    /// - `Store`: the tables are not as an index has them, or the store fails.
    pub fn adopt_placed(
        alloc: Global,
        conn: Connection<S>,
    ) -> Result<SqlBooks<S, Version3>, Unopened<S>>
        requires outside { conn.in_transaction ≡ false }
        ensures { TakesPlaced S.Store conn result }
    {
        let conn = expose_invariants(conn);
        if !has_meta(conn.schema()) {
            return Err(Unopened {
                why: OpenFault::NotAnIndex,
                conn,
            });
        }
        match is_ours(alloc, &conn) {
            Ok(true) => take_placed(conn),
            Ok(false) => Err(refuse_unlike(conn)),
            Err(AllocError) => Err(Unopened {
                why: OpenFault::OutOfMemory,
                conn,
            }),
        }
    }
}

/// The index on a connection to one, if its version is 3.
fn take_placed<S: Alter>(conn: Connection<S>) -> Result<SqlBooks<S, Version3>, Unopened<S>>
    requires { RestsAs S.Store (λ s. IsTrue s.is_open → IsIndex s.now) conn }
    ensures { TakesPlaced S.Store conn result }
{
    let mut conn = conn;
    match read_version(&mut conn) {
        Ok(Some(3)) => Ok(SqlBooks {
            conn: IndexConnection { conn },
            failures: 0,
            stores: 0,
            version: PhantomData,
        }),
        Ok(version) => Err(Unopened {
            why: refusal(version),
            conn,
        }),
        Err(fault) => Err(Unopened {
            why: open_fault_of(fault),
            conn,
        }),
    }
}

/// Why a database is refused whose tables are not known to be those of an index, by its version.
fn refusal(version: Option<u64>) -> OpenFault
    ensures why { RefusesFound result }
    ensures is { result ≡ placed_refusal version }
{
    match version {
        None => OpenFault::NotAnIndex,
        Some(3) => OpenFault::Store,
        Some(_) => OpenFault::OtherVersion,
    }
}

/// Refuses a database whose tables are not known to be those of an index, by its version.
fn refuse_unlike<S: Alter>(conn: Connection<S>) -> Unopened<S>
    requires { IsAtRest S.Store conn }
    ensures { IsNotPlaced S.Store conn result }
{
    let mut conn = conn;
    match told_version(&mut conn) {
        Ok(version) => Unopened {
            why: refusal(version),
            conn,
        },
        Err(fault) => Unopened {
            why: open_fault_of(fault),
            conn,
        },
    }
}
