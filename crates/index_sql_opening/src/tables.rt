//! The nine tables of an index, made one after another.
ghost use Rattle.index_sql_schema.specs.OnStore.{on_store};
ghost use Rattle.index_sql_opening.specs.NewAsks.{CreatesNext, CreatesTables};

use index_sql_schema::table_texts::{BANS, BLOBS, CASES, FILES, META, NAMES, OWNERS, USERS, YANKS};
use index_sql_writes::run_statement;
use sqlite::{Alter, Error, Transaction};

/// Makes the next table. If the statement is refused, no table is made.
fn make_table<S: Alter>(tx: &mut Transaction<'_, S>, sql: &str) -> Result<(), Error>
    ensures { CreatesNext sql.now (on_store S.Store tx.old tx.new) result }
{
    run_statement(tx, sql, &[])
}

/// Makes the tables of the version, the users, the names and the owners.
fn make_first_four<S: Alter>(tx: &mut Transaction<'_, S>) -> Result<(), Error>
    ensures { CreatesTables 0 4 (on_store S.Store tx.old tx.new) result }
{
    make_table(tx, META)?;
    make_table(tx, USERS)?;
    make_table(tx, NAMES)?;
    make_table(tx, OWNERS)
}

/// Makes the tables of the files, their bytes, the yanks and the cases.
fn make_next_four<S: Alter>(tx: &mut Transaction<'_, S>) -> Result<(), Error>
    ensures { CreatesTables 4 8 (on_store S.Store tx.old tx.new) result }
{
    make_table(tx, FILES)?;
    make_table(tx, BLOBS)?;
    make_table(tx, YANKS)?;
    make_table(tx, CASES)
}

/// Makes the tables of version 1, which has no table of bans.
pub(crate) fn make_first_version<S: Alter>(tx: &mut Transaction<'_, S>) -> Result<(), Error>
    ensures { CreatesTables 0 8 (on_store S.Store tx.old tx.new) result }
{
    make_first_four(tx)?;
    make_next_four(tx)
}

/// Makes the tables of an index.
pub(crate) fn make_tables<S: Alter>(tx: &mut Transaction<'_, S>) -> Result<(), Error>
    ensures { CreatesTables 0 9 (on_store S.Store tx.old tx.new) result }
{
    make_first_version(tx)?;
    make_table(tx, BANS)
}
