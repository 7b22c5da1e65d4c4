//! The tables of the index over a connection to it, as `Books`. The connection does each call, which is then counted.
ghost use Rattle.std.specs.Prelude.{◌≡◌, Err, IfErr, IfOk, false, is_ok};
ghost use Rattle.std.specs.FinMap.{get};
ghost use Rattle.sqlite.specs.Held.{state};
ghost use Rattle.index_io.specs.Counts.{next_count};
ghost use Rattle.index_sql_schema.specs.Faults.{fault_by};
ghost use Rattle.index_sql_schema.specs.Reasons.{FailsForReason};
ghost use Rattle.index_sql_reads.specs.ConnectionTables.{tables_of};
ghost use Rattle.index_sql_reads.specs.Sealed.{IsBoundTo, digest_in};
ghost use Rattle.index_rules.specs.Calls.{Writes};
ghost use Rattle.index_rules.specs.Facts.{Sees};
ghost use Rattle.index_rules.specs.TableRows.{file_rows_in, held_rows_in, name_rows_in};
ghost use Rattle.index_rules.specs.StoreFaults.{ends_by_store, fails_by_store};
ghost use Rattle.index_rules.specs.Verdict.{is_held as is_held_lem};
ghost use Rattle.index_rules.specs.Walks.{has_fault, to_taker};
ghost use Rattle.index_tables.specs.Adopted.{IsCommitted};
ghost use Rattle.index_tables.specs.BooksState.{IsHonest, IsWorking};
ghost use Rattle.index_tables.specs.LooksUp.{KeepsBooksLimit, KeepsMeta, KeepsRecords, LooksFor, SqlLooks, WalksBooks, sql_model, with_books};
ghost use Rattle.index_tables.specs.Written.{FailsToWrite};

use crate::version::Version;
use index_digest::Sealed;
use index_names::{FileName, NormalName};
use index_rules::{Books, Change, Fault, FileRow, Keys, NameRow, Taker, View, WalkEnd};
use index_sql_schema::{IndexConnection, fault_of};
use index_sql_writes::make_change;
use sqlite::{Alter, Connection, Error};
use std::alloc::Global;
use std::marker::{Model, PhantomData};

/// The tables in an SQLite database with this version in `meta`. Contracts see the connection and how many calls failed.
///
/// A call looks at the database, or makes one transaction. After a fault of the store the connection may be shut; then
/// no later write succeeds. It has no `Drop`: `into_connection` gives the connection back, to be closed.
pub struct SqlBooks<S: Alter, V: Version> {
    pub(crate) conn: IndexConnection<S>,
    pub(crate) failures: u64,
    pub(crate) stores: u64,
    pub(crate) version: PhantomData<V>,
}

impl<S: Alter, V: Version> Model for SqlBooks<S, V> {
    ghost use Rattle.index_tables.specs.BooksState.{BooksState, HasVersion, books_state_code};

    ghost Value = { BooksState S };

    ghost coded = { books_state_code S.code };

    ghost view = { λ books. record { conn = books.conn; failures = books.failures; stores = books.stores } };

    // The version is in the type: a call of any books keeps it, whatever it says of them.
    ghost invariant = { λ it. HasVersion V.number S.Store it.conn };
}

impl<S: Alter, V: Version> SqlBooks<S, V> {
    /// The connection, outside a transaction. As long as it works, it is one to an index, all of which is committed.
    pub fn into_connection(self) -> Connection<S>
        ensures same { result ≡ self.conn }
        ensures ended { result.in_transaction ≡ false }
        ensures honest { IsWorking (state S.Store result)
            → IsHonest V.number (state S.Store result) }
        ensures committed { IsHonest V.number (state S.Store result)
            → IsCommitted V.number (state S.Store result) (tables_of S.Store self.conn) }
    {
        let SqlBooks {
            conn,
            failures: _,
            stores: _,
            version: _,
        } = self;
        let IndexConnection { conn } = conn;
        conn
    }
}

impl<S: Alter, V: Version> Books for SqlBooks<S, V> {
    ghost use Rattle.sqlite.specs.Held.{state};
    ghost use Rattle.sqlite.specs.State.{HasCleanDisk};
    ghost use Rattle.index_sql_reads.specs.ConnectionTables.{tables_of};
    ghost use Rattle.index_tables.specs.BooksState.{IsHonest, Leaves};
    ghost use Rattle.index_tables.specs.Laws.{settled_at};

    ghost tables = { λ books. tables_of S.Store books.conn };

    ghost IsHonest = { λ books. IsHonest V.number (state S.Store books.conn) };

    ghost IsClean = { λ books. HasCleanDisk (state S.Store books.conn) };

    ghost may_leave = { λ books. Leaves V.number (state S.Store books.conn) };

    ghost failures = { λ books. books.failures };

    ghost stores = { λ books. books.stores };

    fn failure_count(&self) -> u64 {
        self.failures
    }

    fn view(&mut self, alloc: Global, keys: &Keys) -> Result<View, Fault>
        ensures { LooksFor V.number S.Store self.old self.new result (λ T. Sees T keys.now) }
    {
        let seen = index_sql_reads::view(alloc, &mut self.conn, keys);
        self.failures = next_count(self.failures, seen.is_ok());
        self.stores = next_count(self.stores, !fails_by_store(&seen));
        seen
    }

    #[tactic(auto, using(crate::proofs::WriteLemmas::told_reason, crate::proofs::WriteLemmas::limit_kept, crate::proofs::WriteLemmas::meta_kept))]
    fn write(&mut self, _alloc: Global, change: Change) -> Result<(), Fault>
        ensures writes { Writes (sql_model V.number S.Store) self.old self.new change result }
        // What is written can be read again: its rows are records if they were.
        ensures records { KeepsRecords V.number S.Store self.old self.new }
        ensures limit { KeepsBooksLimit V.number S.Store self.old self.new }
        // A write leaves the rows of `meta`.
        ensures meta { KeepsMeta V.number S.Store self.old self.new }
        ensures reason { FailsToWrite S.Store change self.old.conn self.new.conn result }
    {
        let made = make_change(&mut self.conn.conn, &change);
        drop(change);
        self.failures = next_count(self.failures, made.is_ok());
        let told = into_fault(made);
        self.stores = next_count(self.stores, !fails_by_store(&told));
        told
    }

    fn is_held(&mut self, alloc: Global, name: &NormalName) -> Result<bool, Fault>
        ensures { LooksFor V.number S.Store self.old self.new result
            (λ T it. it ≡ is_held_lem (get T.names name.now)) }
    {
        let held = index_sql_reads::is_held(alloc, &mut self.conn, name);
        self.failures = next_count(self.failures, held.is_ok());
        self.stores = next_count(self.stores, !fails_by_store(&held));
        held
    }

    fn bytes_of(&mut self, alloc: Global, file: &FileName) -> Result<Option<Sealed>, Fault>
        ensures found { IsHonest V.number (state S.Store self.new.conn)
            → IfOk result (λ body. body ≡ get (tables_of S.Store self.old.conn).bodies file.now) }
        ensures looks { SqlLooks V.number S.Store self.old self.new (is_ok result)
            (fails_by_store result) }
        // The bytes have the digest that the file is bound to, even if other programs wrote the database.
        ensures bound { IsHonest V.number (state S.Store self.new.conn)
            → IfOk result (IsBoundTo (digest_in (tables_of S.Store self.old.conn) file.now)) }
        ensures reason { let T = tables_of S.Store self.old.conn in
            IsBoundTo (digest_in T file.now) (get T.bodies file.now)
            → FailsForReason S.Store self.old.conn self.new.conn result }
    {
        let body = index_sql_reads::find_body(alloc, &mut self.conn, file);
        self.failures = next_count(self.failures, body.is_ok());
        self.stores = next_count(self.stores, !fails_by_store(&body));
        body
    }

    fn names(&mut self, alloc: Global) -> Result<Vec<NameRow>, Fault>
        ensures { LooksFor V.number S.Store self.old self.new result
            (λ T it. it.items ≡ name_rows_in T) }
    {
        let rows = index_sql_reads::names(alloc, &mut self.conn);
        self.failures = next_count(self.failures, rows.is_ok());
        self.stores = next_count(self.stores, !fails_by_store(&rows));
        rows
    }

    fn files_of(&mut self, alloc: Global, name: &NormalName) -> Result<Vec<FileRow>, Fault>
        ensures { LooksFor V.number S.Store self.old self.new result
            (λ T it. it.items ≡ file_rows_in T name.now) }
    {
        let rows = index_sql_reads::files_of(alloc, &mut self.conn, name);
        self.failures = next_count(self.failures, rows.is_ok());
        self.stores = next_count(self.stores, !fails_by_store(&rows));
        rows
    }

    fn walk_held<K: Taker<NameRow>>(&mut self, alloc: Global, taker: &mut K) -> Result<(), WalkEnd>
        ensures { WalksBooks held_rows_in (with_books V.number S.Store self.old self.new)
            (to_taker K.takes K.stops taker.old taker.new) result }
    {
        let ended = index_sql_reads::walk_held(alloc, &mut self.conn, taker);
        self.failures = next_count(self.failures, !has_fault(&ended));
        self.stores = next_count(self.stores, !ends_by_store(&ended));
        ended
    }

    fn walk_files<K: Taker<FileRow>>(
        &mut self,
        alloc: Global,
        name: &NormalName,
        taker: &mut K,
    ) -> Result<(), WalkEnd>
        ensures { WalksBooks (λ T. file_rows_in T name.now)
            (with_books V.number S.Store self.old self.new)
            (to_taker K.takes K.stops taker.old taker.new) result }
    {
        let ended = index_sql_reads::walk_files(alloc, &mut self.conn, name, taker);
        self.failures = next_count(self.failures, !has_fault(&ended));
        self.stores = next_count(self.stores, !ends_by_store(&ended));
        ended
    }

    ghost honest_is_clean = { λ books honest. honest.clean };

    ghost settled = { λ books honest T left.
        settled_at honest (S.Store.settled books.conn.store) T left };
}

/// The count of failures after one more call, up to 18,446,744,073,709,551,615.
pub(crate) fn next_count(failures: u64, is_right: bool) -> u64
    ensures { result ≡ next_count failures is_right }
{
    if is_right {
        failures
    } else {
        failures.saturating_add(1)
    }
}

/// An error of the database as a fault.
fn into_fault(made: Result<(), Error>) -> Result<(), Fault>
    ensures ok { is_ok result ≡ is_ok made }
    ensures fault { IfErr made (λ error. result ≡ Err (fault_by error)) }
{
    match made {
        Ok(()) => Ok(()),
        Err(error) => Err(fault_of(error)),
    }
}

/// Whether a fault ended the walk.
fn has_fault(ended: &Result<(), WalkEnd>) -> bool
    ensures { result ≡ has_fault ended.now }
{
    matches!(ended, Err(WalkEnd::OutOfMemory | WalkEnd::Store))
}

/// Whether a fault of the store ended the walk.
fn ends_by_store(ended: &Result<(), WalkEnd>) -> bool
    ensures { result ≡ ends_by_store ended.now }
{
    matches!(ended, Err(WalkEnd::Store))
}

/// Whether a call failed with a fault of the store.
pub(crate) fn fails_by_store<T>(told: &Result<T, Fault>) -> bool
    ensures { result ≡ fails_by_store told.now }
{
    matches!(told, Err(Fault::Store))
}
