//! The places of the bytes of files in a database, for books that have a volume.
ghost use Rattle.std.specs.Prelude.{◌≡◌, IfOk, IfSome, IsSome, OnOk, is_ok, length, option_map};
ghost use Rattle.std.specs.FinMap.{get};
ghost use Rattle.sqlite.specs.Held.{state};
ghost use Rattle.sqlite.specs.State.{HasCleanDisk};
ghost use Rattle.index_rules.specs.StoreFaults.{fails_by_store};
ghost use Rattle.index_rules.specs.Tables.{Tables};
ghost use Rattle.index_sql_reads.specs.ConnectionTables.{tables_of};
ghost use Rattle.index_sql_reads.specs.Sealed.{IsDeclared, digest_in};
ghost use Rattle.index_sql_schema.specs.Looks.{IsIndexConnection, QueriesOnly};
ghost use Rattle.index_sql_schema.specs.Reasons.{FailsForReason};
ghost use Rattle.index_volume.specs.Places.{LiesBelow, place_end, place_length};
ghost use Rattle.index_volume_books.specs.Last.{IsDigestOf, IsLast};
ghost use Rattle.index_tables.specs.BooksState.{IsHonest, Leaves};
ghost use Rattle.index_tables.specs.LooksUp.{SqlLooks};
ghost use Rattle.index_tables.specs.Places.{IsOpenedIfOk, LastForReason, greatest_number, is_later};

use crate::books::{SqlBooks, fails_by_store, next_count};
use crate::version::Version3;
use index_names::FileName;
use index_rules::{Bytes, Fault, Taker, WalkEnd};
use index_sql_reads::{find_stored, walk_stored};
use index_sql_schema::IndexConnection;
use index_volume::read_place;
use index_volume_books::{Ends, Kept, Places};
use sqlite::Alter;
use std::alloc::{AllocError, Global};

impl<S: Alter> Places for SqlBooks<S, Version3> {
    fn kept_of(&mut self, alloc: Global, file: &FileName) -> Result<Option<Kept>, Fault>
        ensures found { IsHonest 3 (state S.Store self.new.conn) → IfOk result (λ it.
            option_map (λ kept. kept.stored.items) it
            ≡ get (tables_of S.Store self.old.conn).bodies file.now) }
        ensures digest { IsHonest 3 (state S.Store self.new.conn) → IfOk result (λ it.
            IfSome it (λ kept.
            IsDigestOf (tables_of S.Store self.old.conn) file.now kept.digest)) }
        ensures looks { SqlLooks 3 S.Store self.old self.new (is_ok result)
            (fails_by_store result) }
        ensures works { OnOk result ((T : Tables) → Leaves 3 (state S.Store self.new.conn) T
            → IsHonest 3 (state S.Store self.new.conn)) }
        ensures reason { let T = tables_of S.Store self.old.conn in
            IsDeclared (digest_in T file.now) (get T.bodies file.now)
            → FailsForReason S.Store self.old.conn self.new.conn result }
    {
        expose_index(&self.conn);
        let kept = find_kept(alloc, &mut self.conn, file);
        self.failures = next_count(self.failures, kept.is_ok());
        self.stores = next_count(self.stores, !fails_by_store(&kept));
        kept
    }
}

impl<S: Alter> Ends for SqlBooks<S, Version3> {
    fn last_file(&mut self, alloc: Global) -> Result<Option<FileName>, Fault>
        ensures found { IsHonest 3 (state S.Store self.new.conn)
            → IfOk result (IsLast (tables_of S.Store self.old.conn)) }
        ensures looks { SqlLooks 3 S.Store self.old self.new (is_ok result)
            (fails_by_store result) }
        ensures works { OnOk result ((T : Tables) → Leaves 3 (state S.Store self.new.conn) T
            → IsHonest 3 (state S.Store self.new.conn)) }
        ensures reason { LastForReason S.Store self.old.conn self.new.conn result }
    {
        expose_index(&self.conn);
        let last = find_last(alloc, &mut self.conn);
        self.failures = next_count(self.failures, last.is_ok());
        self.stores = next_count(self.stores, !fails_by_store(&last));
        last
    }
}

/// Does nothing: a proof knows what always holds of a connection to an index only once its field is used.
fn expose_index<S: Alter>(conn: &IndexConnection<S>)
    ensures { IsIndexConnection S.Store conn.now }
{
    let _ = &conn.conn;
}

/// What is stored for a file, with its digest.
fn find_kept<S: Alter>(
    alloc: Global,
    conn: &mut IndexConnection<S>,
    file: &FileName,
) -> Result<Option<Kept>, Fault>
    ensures found { HasCleanDisk (state S.Store conn.new) → IfOk result (λ it.
        option_map (λ kept. kept.stored.items) it
        ≡ get (tables_of S.Store conn.old).bodies file.now) }
    ensures digest { HasCleanDisk (state S.Store conn.new) → IfOk result (λ it.
        IfSome it (λ kept. IsDigestOf (tables_of S.Store conn.old) file.now kept.digest)) }
    ensures looks { QueriesOnly S.Store conn.old conn.new (is_ok result) }
    ensures opened { IsOpenedIfOk S.Store conn.new result }
    ensures reason { let T = tables_of S.Store conn.old in
        IsDeclared (digest_in T file.now) (get T.bodies file.now)
        → FailsForReason S.Store conn.old conn.new result }
{
    match find_stored(alloc, conn, file) {
        Ok(Some((digest, stored))) => Ok(Some(Kept { digest, stored })),
        Ok(None) => Ok(None),
        Err(fault) => Err(fault),
    }
}

/// The file whose place ends last. All files are walked over.
fn find_last<S: Alter>(
    alloc: Global,
    conn: &mut IndexConnection<S>,
) -> Result<Option<FileName>, Fault>
    ensures found { HasCleanDisk (state S.Store conn.new)
        → IfOk result (IsLast (tables_of S.Store conn.old)) }
    ensures looks { QueriesOnly S.Store conn.old conn.new (is_ok result) }
    ensures opened { IsOpenedIfOk S.Store conn.new result }
    ensures reason { LastForReason S.Store conn.old conn.new result }
{
    let mut last = LastPlace {
        last: None,
        why: Fault::Store,
    };
    match walk_stored(alloc, conn, &mut last) {
        Ok(()) => Ok(file_of(last)),
        Err(WalkEnd::Stopped) => Err(last.why),
        Err(WalkEnd::OutOfMemory) => Err(Fault::OutOfMemory),
        Err(WalkEnd::Store) => Err(Fault::Store),
    }
}

/// Of the files that it took, the one whose place ends last, and that end. It stops at what is no place, or if memory
/// runs out.
#[derive(Drop)]
struct LastPlace {
    last: Option<(FileName, usize)>,
    /// Why it stops.
    why: Fault,
}

/// The file whose place ends last.
fn file_of(place: LastPlace) -> Option<FileName>
    ensures { result ≡ option_map (λ last. last.0) place.last }
{
    match place.last {
        Some((file, _)) => Some(file),
        None => None,
    }
}

/// Where a place ends, if the text is a place that ends where a file can.
fn end_of(stored: &[u8]) -> Option<usize>
    ensures size { IfSome result (λ _. length stored.now ≡ place_length) }
    ensures end { IfSome result (λ end. end ≡ place_end stored.now) }
    ensures some { LiesBelow greatest_number stored.now → IsSome result }
{
    let place = read_place(stored)?;
    place.at.checked_add(place.size)
}

/// Whether a place with this end ends later than the last one.
fn is_later(last: &Option<(FileName, usize)>, end: usize) -> bool
    ensures { result ≡ is_later last.now end }
{
    match last {
        Some((_, before)) => *before < end,
        None => true,
    }
}

impl Taker<(FileName, Bytes)> for LastPlace {
    ghost use Rattle.index_tables.specs.Places.{StopsAtPlace, TakesPlace};

    ghost takes = { λ before row after. TakesPlace before.last row after.last };

    ghost stops = { λ before row after. StopsAtPlace row after.why };

    fn take(&mut self, row: &(FileName, Bytes)) -> bool {
        let Some(end) = end_of(row.1.as_slice()) else {
            return false;
        };
        if !is_later(&self.last, end) {
            return true;
        }
        match row.0.clone() {
            Ok(file) => {
                self.last = Some((file, end));
                true
            }
            Err(AllocError) => {
                self.why = Fault::OutOfMemory;
                false
            }
        }
    }
}
