//! Comparisons of a schema with those of an index. If `is_ours` or `is_first_version` is false, nothing is known.
ghost use Rattle.std.specs.Prelude.{◌≡◌, ◌↔◌, false, IsTrue, IfOk};
ghost use Rattle.sqlite.specs.Steps.{over_memory};
ghost use Rattle.index_sql_opening.specs.Making.{IsOfSchema, MakesTables};
ghost use Rattle.index_sql_schema.specs.Schema.{index_schema, no_schema};
ghost use Rattle.index_sql_schema.specs.FirstVersion.{first_version_schema};
ghost use Rattle.index_sql_schema.specs.OnStore.{on_store};

use crate::same::Same;
use crate::tables::{make_first_version, make_tables};
use sqlite::{Alter, Connection, Error, MemStore};
use std::alloc::{AllocError, Global};

/// Whether the database is empty.
pub fn is_blank<S: Alter>(conn: &Connection<S>) -> bool
    ensures schema { IsTrue result ↔ IsOfSchema S.Store conn.now no_schema }
{
    let schema = conn.schema();
    schema.tables.is_empty() && schema.indexes.is_empty() && schema.views.is_empty()
}

/// Whether the schema is that of an index, which is made in memory for the comparison.
///
/// # Errors
///
/// `AllocError` if memory runs out.
pub fn is_ours<S: Alter>(alloc: Global, conn: &Connection<S>) -> Result<bool, AllocError>
    ensures schema { IfOk result (λ it. IsTrue it → IsOfSchema S.Store conn.now index_schema) }
{
    match index_in_memory(alloc) {
        Ok(ours) => Ok(conn.schema().same(ours.schema())),
        Err(_) => Err(AllocError),
    }
}

/// Whether the schema is that of version 1, which is made in memory for the comparison.
///
/// # Errors
///
/// `AllocError` if memory runs out.
pub fn is_first_version<S: Alter>(alloc: Global, conn: &Connection<S>) -> Result<bool, AllocError>
    ensures schema { IfOk result (λ it. IsTrue it
        → IsOfSchema S.Store conn.now first_version_schema) }
{
    match first_version_in_memory(alloc) {
        Ok(first) => Ok(conn.schema().same(first.schema())),
        Err(_) => Err(AllocError),
    }
}

/// A database in memory with the tables of an index.
fn index_in_memory(alloc: Global) -> Result<Connection<MemStore>, Error>
    ensures schema { IfOk result (λ ours. IsOfSchema over_memory ours index_schema) }
{
    let mut conn = Connection::open_in_memory(alloc)?;
    commit_tables(&mut conn)?;
    Ok(conn)
}

/// A database in memory with the tables of version 1.
fn first_version_in_memory(alloc: Global) -> Result<Connection<MemStore>, Error>
    ensures schema { IfOk result (λ first. IsOfSchema over_memory first first_version_schema) }
{
    let mut conn = Connection::open_in_memory(alloc)?;
    commit_first_version(&mut conn)?;
    Ok(conn)
}

/// Makes the tables of an index.
fn commit_tables<S: Alter>(conn: &mut Connection<S>) -> Result<(), Error>
    requires { conn.old.in_transaction ≡ false }
    ensures made { MakesTables 9 (on_store S.Store conn.old conn.new) result }
{
    let mut tx = conn.transaction();
    make_tables(&mut tx)?;
    tx.commit()?;
    Ok(())
}

/// Makes the tables of version 1.
fn commit_first_version<S: Alter>(conn: &mut Connection<S>) -> Result<(), Error>
    requires { conn.old.in_transaction ≡ false }
    ensures made { MakesTables 8 (on_store S.Store conn.old conn.new) result }
{
    let mut tx = conn.transaction();
    make_first_version(&mut tx)?;
    tx.commit()?;
    Ok(())
}
