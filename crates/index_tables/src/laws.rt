//! Laws of an index that is opened again. The contract of each function is the law.
ghost use Rattle.std.specs.Prelude.{◌≡◌, ◌⊎◌, false, IsTrue};
ghost use Rattle.sqlite_trees.specs.Tree.{Trees};
ghost use Rattle.sqlite_wal.specs.Recovery.{Image};
ghost use Rattle.sqlite.specs.Files.{file_state, over_files};
ghost use Rattle.sqlite.specs.Held.{state, AreDatabases};
ghost use Rattle.sqlite.specs.State.{HasCleanDisk};
ghost use Rattle.index_sql_reads.specs.ConnectionTables.{tables_of};
ghost use Rattle.index_rules.specs.Tables.{Tables};
ghost use Rattle.index_tables.specs.BooksState.{IsHonest, Leaves};
ghost use Rattle.index_tables.specs.Reopened.{CrashLeavesEitherTables, IsLeft, IsOpenedOver, MayLeave, OpensOnly};

use crate::books::SqlBooks;
use crate::opening::Unopened;
use crate::version::{Version, Version2};
use index_sql_schema::IndexConnection;
use sqlite::{Alter, Connection, FileStore};
use sqlite_disk::Disk;
use std::alloc::Global;

/// What a crash or a close of an index leaves, opening finds again: `adopt` gives the tables of the index. If a call
/// was in progress, they are those before it or those with it, as the call's clause on crashes says. Or `adopt` fails,
/// because memory runs out or the store fails.
pub fn left_is_found_again<D: Disk, S: Alter>(
    alloc: Global,
    books: SqlBooks<FileStore<D>, Version2>,
    conn: Connection<S>,
) -> (
    SqlBooks<FileStore<D>, Version2>,
    Result<SqlBooks<S, Version2>, Unopened<S>>,
)
    requires outside { conn.in_transaction ≡ false }
    ensures same { result.0 ≡ books }
    ensures rest { (left : Image) → IsHonest 2 (file_state books.conn) → IsLeft books.conn left →
        IsOpenedOver S.Store left conn
        → OpensOnly S.Store (λ T. T ≡ tables_of over_files books.conn) result.1 }
    ensures during { (left : Image) (A B : Tables) → HasCleanDisk (file_state books.conn)
        → CrashLeavesEitherTables A B (file_state books.conn) → MayLeave books.conn left →
        IsOpenedOver S.Store left conn → OpensOnly S.Store (λ T. ∥ (T ≡ A) ⊎ (T ≡ B) ∥₁) result.1 }
{
    let SqlBooks {
        conn: before,
        failures,
        stores,
        version,
    } = books;
    let IndexConnection { conn: before } = before;
    let before = left_by(before);
    let opened = SqlBooks::adopt(alloc, conn);
    (
        SqlBooks {
            conn: IndexConnection { conn: before },
            failures,
            stores,
            version,
        },
        opened,
    )
}

/// A crash between two calls leaves the tables of an honest index as they stand.
pub fn honest_index_leaves_itself<S: Alter, V: Version>(books: SqlBooks<S, V>) -> SqlBooks<S, V>
    ensures same { result ≡ books }
    ensures itself { IsHonest V.number (state S.Store books.conn) → (T : Tables) →
        Leaves V.number (state S.Store books.conn) T → T ≡ tables_of S.Store books.conn }
{
    let SqlBooks {
        conn,
        failures,
        stores,
        version,
    } = books;
    let IndexConnection { conn } = conn;
    let conn = left_by(conn);
    SqlBooks {
        conn: IndexConnection { conn },
        failures,
        stores,
        version,
    }
}

/// The connection unchanged: a crash leaves a database of it, and of an open connection its last commit.
fn left_by<S: Alter>(conn: Connection<S>) -> Connection<S>
    ensures same { result ≡ conn }
    ensures numbered { HasCleanDisk (state S.Store conn)
        → IsTrue (S.Store.view conn.store).is_numbered }
    ensures databases { HasCleanDisk (state S.Store conn)
        → AreDatabases (S.Store.recovers conn.store) }
    ensures settled { (db : Trees) → IsTrue (state S.Store conn).is_open
        → (state S.Store conn).may_leave db → db ≡ (state S.Store conn).committed.trees }
{
    let _outside = conn.is_autocommit();
    conn
}
