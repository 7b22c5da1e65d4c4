//! The rows of a new index.
ghost use Rattle.std.specs.Prelude.{◌≡◌, [], ◌∷◌, false};
ghost use Rattle.index_sql_schema.specs.CreateSteps.{IsStage};
ghost use Rattle.index_sql_schema.specs.Index.{with_version};
ghost use Rattle.index_sql_schema.specs.OnStore.{on_store};
ghost use Rattle.index_sql_writes.specs.Transaction.{IsInTransaction, MakesInTransaction};
ghost use Rattle.index_sql_opening.specs.NewAsks.{StepsFrom, asks_of_new, put_version_ask};
ghost use Rattle.index_sql_opening.specs.Created.{one_user, one_version_row};
ghost use Rattle.index_sql_opening.specs.Making.{MakesNewIndex};

use crate::tables::make_tables;
use index_rules::{UserId, UserRecord};
use index_sql_schema::statement_texts::PUT_VERSION;
use index_sql_writes::{put_user, run_statement};
use sqlite::{Alter, Connection, Error, Transaction, params};

/// Puts the row of the version among those of `meta`.
fn put_version<S: Alter>(tx: &mut Transaction<'_, S>, version: u32) -> Result<(), Error>
    ensures { StepsFrom IsInTransaction (MakesInTransaction (λ T. T) (with_version version))
        (put_version_ask version ∷ []) (on_store S.Store tx.old tx.new) result }
{
    run_statement(tx, PUT_VERSION, params![version])
}

/// Makes the tables, with the row of the version and one user.
fn make_all<S: Alter>(
    tx: &mut Transaction<'_, S>,
    user: &UserId,
    account: &UserRecord,
    version: u32,
) -> Result<(), Error>
    ensures { StepsFrom (IsStage 0)
        (MakesInTransaction (λ _. one_user user.now account.now) (one_version_row version))
        (asks_of_new version user.now account.now) (on_store S.Store tx.old tx.new) result }
{
    make_tables(tx)?;
    put_user(tx, user, account)?;
    put_version(tx, version)
}

/// Makes a new index of an empty database, with this user and the row of this version, and nothing else. A crash leaves
/// the database as it was, or the whole index.
///
/// # Errors
///
/// The error of the statement that failed, or of the commit. The database is then as it was.
pub fn fill_new<S: Alter>(
    conn: &mut Connection<S>,
    user: &UserId,
    account: &UserRecord,
    version: u32,
) -> Result<(), Error>
    requires { conn.old.in_transaction ≡ false }
    ensures made { MakesNewIndex version user.now account.now
        (on_store S.Store conn.old conn.new) result }
{
    let mut tx = conn.transaction();
    make_all(&mut tx, user, account, version)?;
    tx.commit()?;
    Ok(())
}
