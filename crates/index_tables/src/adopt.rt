//! Opening the index in an existing database.
ghost use Rattle.std.specs.Prelude.{◌≡◌, false, is_ok, IfOk, IfErr, IfSome, IsTrue};
ghost use Rattle.sqlite.specs.Held.{state};
ghost use Rattle.sqlite.specs.State.{HasCleanDisk};
ghost use Rattle.index_sql_opening.specs.Making.{RestsAs};
ghost use Rattle.index_sql_opening.specs.Migrated.{asks_of_migration};
ghost use Rattle.index_sql_opening.specs.Names.{has_meta};
ghost use Rattle.index_sql_opening.specs.Versions.{FailsToReadVersion};
ghost use Rattle.index_sql_schema.specs.FirstVersion.{IsAnyVersion};
ghost use Rattle.index_sql_schema.specs.Index.{version_in};
ghost use Rattle.index_sql_schema.specs.Looks.{QueriesOnly};
ghost use Rattle.index_tables.specs.Opened.{IsFault, IsRefusal, IsRefusedAs, IsUnopened};
ghost use Rattle.index_tables.specs.Opened.{RefusesFound, StoreForRefusal};
ghost use Rattle.index_tables.specs.Adopted.{Adopts, HasSchema, HasVersionOne, IsOfKind, IsOurs};
ghost use Rattle.index_tables.specs.Adopted.{IsRaised, IsReason, IsReasonOfKind};
ghost use Rattle.index_tables.specs.Adopted.{foreign_tables_fault, refusal_by};

use crate::books::SqlBooks;
use crate::opening::{Unopened, open_fault_of};
use crate::version::Version2;
use index_rules::{Fault, OpenFault};
use index_sql_opening::{
    expose_invariants, has_meta, has_table, has_version_1_tables, is_first_version, is_ours,
    migrate, told_version,
};
use index_sql_schema::{IndexConnection, fault_of};
use sqlite::{Alter, Connection};
use std::alloc::{AllocError, Global};
use std::marker::PhantomData;

/// A schema that this crate knows.
#[derive(Clone, Copy)]
pub(crate) enum Kind {
    /// The schema of an index.
    Index,
    /// The schema of version 1.
    FirstVersion,
}

impl<S: Alter> SqlBooks<S, Version2> {
    /// Opens the index in an existing database. One of version 1 becomes one of version 2, in one transaction; the rows
    /// of `meta` stay, except for the version. A crash leaves the database as it was, or, of version 1, with the whole
    /// change; after the adoption, the index alone.
    ///
    /// # Errors
    ///
    /// A refused database is as it was. If a fault has shut the connection, one of version 1 may be one of version 2.
    ///
    /// - `NotAnIndex`: there is no table `meta` with the columns of the version, it has no row with id 1 and kind
    ///   `python-index`, or a table of its version is missing by name.
    /// - `OtherVersion`: the version is neither 1 nor 2.
    /// - `OutOfMemory`: memory ran out.
    /// - `Store`: the tables are not as an index has them, or the store fails.
    pub fn adopt(alloc: Global, conn: Connection<S>) -> Result<SqlBooks<S, Version2>, Unopened<S>>
        requires outside { conn.in_transaction ≡ false }
        // The books are the index that is found in the database, or why there are none.
        ensures adopts { Adopts S.Store (IsReason S.Store) conn result }
        // Without a table `meta` with the columns of the version it is not an index, whatever else fails.
        ensures no_meta { has_meta (state S.Store conn).now.schema ≡ false
            → IsRefusedAs OpenFault.NotAnIndex result }
        // Of an open index only memory and the store can be the reason, on a clean disk.
        ensures again { IfErr result (λ refused. HasCleanDisk (state S.Store refused.conn)
            → IsTrue (state S.Store conn).is_open → IsOurs (state S.Store conn).now
            → IsFault refused.why) }
    {
        let conn = expose_invariants(conn);
        if !has_meta(conn.schema()) {
            return Err(Unopened {
                why: OpenFault::NotAnIndex,
                conn,
            });
        }
        match kind_of(alloc, &conn) {
            Ok(Some(kind)) => adopt_kind(conn, kind),
            Ok(None) => Err(refuse_other(conn)),
            Err(AllocError) => Err(Unopened {
                why: OpenFault::OutOfMemory,
                conn,
            }),
        }
    }
}

/// The kind of the schema, or `None` if it was not recognised.
fn kind_of<S: Alter>(alloc: Global, conn: &Connection<S>) -> Result<Option<Kind>, AllocError>
    ensures kind { IfOk result (λ kind.
        IfSome kind (HasSchema (state S.Store conn.now).now.schema)) }
{
    if is_ours(alloc, conn)? {
        Ok(Some(Kind::Index))
    } else if is_first_version(alloc, conn)? {
        Ok(Some(Kind::FirstVersion))
    } else {
        Ok(None)
    }
}

/// The version in `meta`, of which `adopt_kind` needs no more than these clauses: with all those of the call its proof
/// is not found.
fn read_version<S: Alter>(conn: &mut Connection<S>) -> Result<Option<u64>, Fault>
    requires { RestsAs S.Store (λ s. IsTrue s.is_open → IsAnyVersion s.now) conn.old }
    ensures found { HasCleanDisk (state S.Store conn.new)
        → IfOk result (λ version. version ≡ version_in (state S.Store conn.old).now.trees) }
    ensures looks { QueriesOnly S.Store conn.old conn.new (is_ok result) }
    ensures reason { IfErr result (FailsToReadVersion S.Store conn.old conn.new) }
{
    index_sql_opening::read_version(conn)
}

/// The index on a connection to one, or to a database of version 1, which becomes one.
fn adopt_kind<S: Alter>(
    conn: Connection<S>,
    kind: Kind,
) -> Result<SqlBooks<S, Version2>, Unopened<S>>
    requires { RestsAs S.Store (λ s. IsTrue s.is_open → IsOfKind s.now kind) conn }
    // One that has the version of its kind is opened, unless the store or SQL fails.
    ensures { Adopts S.Store (IsReasonOfKind S.Store kind) conn result }
{
    let has_first = has_version_1_tables(conn.schema());
    let has_bans = has_table(conn.schema(), b"bans");
    let mut conn = conn;
    match (kind, read_version(&mut conn)) {
        (Kind::Index, Ok(Some(2))) => Ok(SqlBooks {
            conn: IndexConnection { conn },
            failures: 0,
            stores: 0,
            version: PhantomData,
        }),
        (Kind::FirstVersion, Ok(Some(1))) => migrate_and_adopt(conn),
        (_, Ok(version)) => Err(Unopened {
            why: refusal(version, has_first, has_bans),
            conn,
        }),
        (_, Err(fault)) => Err(Unopened {
            why: open_fault_of(fault),
            conn,
        }),
    }
}

/// Why a database with this version is refused, by whether it has all tables of version 1 by name, and that of the
/// bans.
fn refusal(version: Option<u64>, has_first: bool, has_bans: bool) -> OpenFault
    ensures { IsRefusal (refusal_by version has_first has_bans) result }
{
    match version {
        None => OpenFault::NotAnIndex,
        Some(1) => foreign_tables_fault(has_first),
        Some(2) => foreign_tables_fault(has_first && has_bans),
        Some(_) => OpenFault::OtherVersion,
    }
}

/// Why a database is refused whose tables exist by name, but are not as an index has them.
fn foreign_tables_fault(has_all: bool) -> OpenFault
    ensures { IsRefusal (foreign_tables_fault has_all) result }
{
    if has_all {
        OpenFault::Store
    } else {
        OpenFault::NotAnIndex
    }
}

/// Refuses a database that others made, by its version.
fn refuse_other<S: Alter>(conn: Connection<S>) -> Unopened<S>
    requires { RestsAs S.Store (λ s. IsTrue (has_meta s.now.schema)) conn }
    ensures why { RefusesFound result.why }
    ensures refused { IsUnopened S.Store IsRaised (IsReason S.Store) conn result }
{
    let has_first = has_version_1_tables(conn.schema());
    let has_bans = has_table(conn.schema(), b"bans");
    let mut conn = conn;
    match told_version(&mut conn) {
        Ok(version) => Unopened {
            why: refusal(version, has_first, has_bans),
            conn,
        },
        Err(fault) => Unopened {
            why: open_fault_of(fault),
            conn,
        },
    }
}

/// Makes a database of version 1 an index of version 2, and opens it.
fn migrate_and_adopt<S: Alter>(conn: Connection<S>) -> Result<SqlBooks<S, Version2>, Unopened<S>>
    requires { RestsAs S.Store (λ s. HasCleanDisk s → IsTrue s.is_open → HasVersionOne s.now) conn }
    ensures adopts { Adopts S.Store (StoreForRefusal S.Store asks_of_migration) conn result }
    ensures fault { IfErr result (λ refused. IsFault refused.why) }
{
    let mut conn = conn;
    match migrate(&mut conn) {
        Ok(()) => Ok(SqlBooks {
            conn: IndexConnection { conn },
            failures: 0,
            stores: 0,
            version: PhantomData,
        }),
        Err(error) => Err(Unopened {
            why: open_fault_of(fault_of(error)),
            conn,
        }),
    }
}
