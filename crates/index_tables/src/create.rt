//! A new index in an empty database.
ghost use Rattle.std.specs.Prelude.{◌≡◌, ◌⊎◌, ◌↔◌, false, IfOk, IfErr, IsTrue};
ghost use Rattle.sqlite.specs.Held.{state};
ghost use Rattle.sqlite.specs.State.{IsLive};
ghost use Rattle.index_rules.specs.FirstTables.{IsBadFirstUser, first_record, first_tables};
ghost use Rattle.index_rules.specs.Sound.{IsSound};
ghost use Rattle.index_rules.specs.History.{begins};
ghost use Rattle.index_rules.specs.StandsFor.{StandsFor};
ghost use Rattle.index_sql_schema.specs.Schema.{index_schema};
ghost use Rattle.index_sql_opening.specs.Names.{has_any_of};
ghost use Rattle.index_sql_opening.specs.NewAsks.{asks_of_new};
ghost use Rattle.index_sql_opening.specs.Created.{one_user};
ghost use Rattle.index_sql_opening.specs.Making.{RestsAs};
ghost use Rattle.index_tables.specs.Opened.{AreNew, HasOthers, HaveTables, IsAmongOthers, IsFault, IsNotMade, IsRefusedAs, IsTaken, RefusesNew};

use crate::books::SqlBooks;
use crate::opening::{Unopened, open_fault_of};
use crate::version::Version;
use index_digest::Digest256;
use index_rules::{OpenFault, UserId, UserRecord, first_user};
use index_sql_opening::{expose_invariants, fill_new, has_any_table, is_blank};
use index_sql_schema::{IndexConnection, fault_of};
use sqlite::{Alter, Connection};
use std::alloc::Global;
use std::marker::PhantomData;

impl<S: Alter, V: Version> SqlBooks<S, V> {
    /// Makes a new index with one user, who is of the office and whose token has this SHA-256 digest, and with one row
    /// in `meta`, in one transaction. A crash leaves the database as it was, or the whole index; after the call, the
    /// index alone.
    ///
    /// # Errors
    ///
    /// A refused database is as it was.
    ///
    /// - `BadFirstUser` exactly if the bytes are not a valid user id or the digest is that of the empty text.
    /// - `NotEmpty`, otherwise, exactly if a table has the name of one of an index.
    /// - `Store`: the database has anything else, or the store fails: the disk has a fault, the connection was shut, a
    ///   limit is set on the steps of its queries, or SQL refuses a statement.
    pub fn create(
        alloc: Global,
        conn: Connection<S>,
        user: &[u8],
        token: Digest256,
    ) -> Result<SqlBooks<S, V>, Unopened<S>>
        requires outside { conn.in_transaction ≡ false }
        ensures made { IfOk result
            (AreNew V.number S.Store (first_tables user.now token) conn) }
        ensures sound { IfOk result (HaveTables S.Store IsSound) }
        ensures history { let h = begins user.now token in
            IfOk result (HaveTables S.Store (λ T. StandsFor T h)) }
        ensures bad_first_user { IsRefusedAs OpenFault.BadFirstUser result
            ↔ IsBadFirstUser user.now token }
        ensures taken { IsRefusedAs OpenFault.NotEmpty result
            → IsTaken user.now token (state S.Store conn).now.schema }
        ensures not_empty { IsTaken user.now token (state S.Store conn).now.schema
            → IsRefusedAs OpenFault.NotEmpty result ⊎ IsRefusedAs OpenFault.OutOfMemory result }
        ensures among_others { IsAmongOthers user.now token (state S.Store conn).now.schema
            → IsRefusedAs OpenFault.Store result ⊎ IsRefusedAs OpenFault.OutOfMemory result }
        ensures why { IfErr result (λ refused. RefusesNew refused.why) }
        ensures refused { IfErr result (IsNotMade V.number S.Store (first_tables user.now token)
            (asks_of_new V.number user.now (first_record token)) conn) }
    {
        let conn = expose_invariants(conn);
        match first_user(alloc, user, token) {
            Ok((user, account)) => fill_blank(conn, &user, &account),
            Err(why) => Err(Unopened { why, conn }),
        }
    }
}

/// A new index with this user, if the database is empty.
fn fill_blank<S: Alter, V: Version>(
    conn: Connection<S>,
    user: &UserId,
    account: &UserRecord,
) -> Result<SqlBooks<S, V>, Unopened<S>>
    requires { RestsAs S.Store IsLive conn }
    ensures made { IfOk result
        (AreNew V.number S.Store (one_user user.now account.now) conn) }
    ensures why { IfErr result (λ refused.
        (refused.why ≡ OpenFault.NotEmpty) ⊎ IsFault refused.why) }
    ensures taken { IsRefusedAs OpenFault.NotEmpty result
        → IsTrue (has_any_of (state S.Store conn).now.schema index_schema.tables) }
    ensures not_empty { IsTrue (has_any_of (state S.Store conn).now.schema index_schema.tables)
        → IsRefusedAs OpenFault.NotEmpty result }
    ensures among_others { HasOthers (state S.Store conn).now.schema
        → IsRefusedAs OpenFault.Store result }
    ensures refused { IfErr result (IsNotMade V.number S.Store (one_user user.now account.now)
        (asks_of_new V.number user.now account.now) conn) }
{
    if has_any_table(conn.schema()) {
        return Err(Unopened {
            why: OpenFault::NotEmpty,
            conn,
        });
    }
    if !is_blank(&conn) {
        return Err(Unopened {
            why: OpenFault::Store,
            conn,
        });
    }
    let mut conn = conn;
    match fill_new(&mut conn, user, account, V::number()) {
        Ok(()) => Ok(SqlBooks {
            conn: IndexConnection { conn },
            failures: 0,
            stores: 0,
            version: PhantomData,
        }),
        Err(error) => Err(Unopened {
            why: open_fault_of(fault_of(error)),
            conn,
        }),
    }
}
