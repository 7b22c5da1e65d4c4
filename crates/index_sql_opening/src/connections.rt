//! What holds of every connection.
ghost use Rattle.std.specs.Prelude.{◌≡◌, false, IsTrue};
ghost use Rattle.sqlite.specs.Held.{state};
ghost use Rattle.sqlite.specs.State.{IsLive};
ghost use Rattle.index_sql_opening.specs.Making.{IsBySchema};
ghost use Rattle.index_sql_schema.specs.Schema.{index_schema};
ghost use Rattle.index_sql_schema.specs.Index.{IsIndex};
ghost use Rattle.index_sql_schema.specs.FirstVersion.{first_version_schema, IsFirstVersion};

use sqlite::{Alter, Connection};

/// The connection unchanged. One with the schema of an index is an index, and one with that of version 1 is of version
/// 1: the rowids of each table rise, so none occurs twice.
///
/// It is taken by value, since the invariants of a connection are known only then.
pub fn expose_invariants<S: Alter>(conn: Connection<S>) -> Connection<S>
    ensures same { result ≡ conn }
    ensures live { IsLive (state S.Store conn) }
    ensures settled { conn.in_transaction ≡ false → IsTrue (state S.Store conn).is_open
        → (state S.Store conn).now ≡ (state S.Store conn).committed }
    ensures index { IsBySchema S.Store index_schema IsIndex conn }
    ensures first_version { IsBySchema S.Store first_version_schema IsFirstVersion conn }
{
    let _outside = conn.is_autocommit();
    conn
}
