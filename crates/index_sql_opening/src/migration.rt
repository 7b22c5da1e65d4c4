//! How a database of version 1 becomes an index of version 2.
ghost use Rattle.std.specs.Prelude.{◌≡◌, [], ◌∷◌, false};
ghost use Rattle.index_sql_opening.specs.Migrated.{asks_of_migration, IsMigrating};
ghost use Rattle.index_sql_opening.specs.NewAsks.{text_ask, StepsFrom};
ghost use Rattle.index_sql_opening.specs.Making.{MakesOfFirstVersion};
ghost use Rattle.index_sql_schema.specs.FirstVersion.{without_bans};
ghost use Rattle.index_sql_schema.specs.Index.{raised, same_meta};
ghost use Rattle.index_sql_schema.specs.OnStore.{on_store};
ghost use Rattle.index_sql_schema.specs.StatementTexts.{update_version_text};
ghost use Rattle.index_sql_schema.specs.TableTexts.{bans_text};
ghost use Rattle.index_sql_writes.specs.Transaction.{IsInTransaction, MakesInTransaction};

use index_sql_schema::statement_texts::UPDATE_VERSION;
use index_sql_schema::table_texts::BANS;
use index_sql_writes::run_statement;
use sqlite::{Alter, Connection, Error, Transaction};

/// Makes the table of the bans.
fn make_bans<S: Alter>(tx: &mut Transaction<'_, S>) -> Result<(), Error>
    ensures { StepsFrom IsMigrating (MakesInTransaction without_bans same_meta)
        (text_ask bans_text ∷ []) (on_store S.Store tx.old tx.new) result }
{
    run_statement(tx, BANS, &[])
}

/// Sets the version in the row with id 1. The other rows stay.
fn raise_version<S: Alter>(tx: &mut Transaction<'_, S>) -> Result<(), Error>
    ensures { StepsFrom IsInTransaction (MakesInTransaction (λ T. T) raised)
        (text_ask update_version_text ∷ []) (on_store S.Store tx.old tx.new) result }
{
    run_statement(tx, UPDATE_VERSION, &[])
}

/// Makes an index of a database of version 1.
fn migrate_tables<S: Alter>(tx: &mut Transaction<'_, S>) -> Result<(), Error>
    ensures { StepsFrom IsMigrating (MakesInTransaction without_bans raised)
        asks_of_migration (on_store S.Store tx.old tx.new) result }
{
    make_bans(tx)?;
    raise_version(tx)
}

/// Makes an index of a database of version 1, with the same tables and no bans, in one transaction. The rows of `meta`
/// stay, except for the version. A crash leaves the database as it was, or the whole index.
///
/// # Errors
///
/// The error of the statement that failed, or of the commit. The database is then as it was.
pub fn migrate<S: Alter>(conn: &mut Connection<S>) -> Result<(), Error>
    requires { conn.old.in_transaction ≡ false }
    ensures made { MakesOfFirstVersion (on_store S.Store conn.old conn.new) result }
{
    let mut tx = conn.transaction();
    migrate_tables(&mut tx)?;
    tx.commit()?;
    Ok(())
}
