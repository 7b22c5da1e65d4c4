//! Books whose bodies lie in a volume.
ghost use Rattle.std.specs.Prelude.{◌≡◌, ℕ, List, true, false, is_ok, IfOk, IfSome, IsTrue};
ghost use Rattle.std.specs.FinMap.{get};
ghost use Rattle.index_digest.specs.Digest.{sha256};
ghost use Rattle.index_io.specs.Counts.{next_count};
ghost use Rattle.index_rules.specs.Results.{Returns};
ghost use Rattle.index_rules.specs.StoreFaults.{CountsStoreFault, fails_by_store};
ghost use Rattle.index_rules.specs.Tables.{Tables};
ghost use Rattle.index_volume.specs.Volume.{Keeps};
ghost use Rattle.index_volume_books.specs.Last.{IsDigestOf};
ghost use Rattle.index_volume_books.specs.Over.{Fits, LeavesBoth, has_body, over};
ghost use Rattle.index_volume_books.specs.Through.{FindsThrough, LooksThrough, WritesThrough, side_of};
ghost use Rattle.index_volume_books.specs.OverLaws.{settled_over};

use crate::bodies::{put_body, read_stored};
use crate::counts::{ends_by_store, fails_by_store, has_fault, next_count};
use crate::places::Places;
use index_digest::Sealed;
use index_names::{FileName, NormalName};
use index_rules::{Books, Change, Fault, FileRow, Keys, NameRow, Taker, View, WalkEnd};
use sqlite_disk::Disk;
use std::alloc::Global;

/// Books over others, which have the places of the bodies, and a volume, which has the bodies.
#[derive(Drop)]
pub struct VolumeBooks<B: Places, D: Disk> {
    books: B,
    disk: D,
    /// Where the next body is put.
    end: usize,
    failures: u64,
    stores: u64,
    ghost placed: { B.IsHonest books → Fits end (B.tables books) },
    ghost left: { (T : Tables) → B.may_leave books T → Fits end T },
    ghost kept: { IsTrue (D.is_clean disk) → Keeps end (D.seen disk) (D.may_leave disk) },
}

impl<B: Places, D: Disk> VolumeBooks<B, D> {
    /// Books over others and a volume, to which bodies are added from `end` on.
    pub(crate) fn new(books: B, disk: D, end: usize) -> VolumeBooks<B, D>
        requires placed { B.IsHonest books → Fits end (B.tables books) }
        requires left { (T : Tables) → B.may_leave books T → Fits end T }
        requires kept { IsTrue (D.is_clean disk) → Keeps end (D.seen disk) (D.may_leave disk) }
        ensures same { (result.books ≡ books) × ((result.disk ≡ disk) × (result.end ≡ end)) }
        ensures counts { (result.failures ≡ 0) × (result.stores ≡ 0) }
    {
        VolumeBooks {
            books,
            disk,
            end,
            failures: 0,
            stores: 0,
        }
    }

    /// The books below and the volume.
    pub fn into_parts(self) -> (B, D)
        ensures parts { result ≡ (self.books, self.disk) }
        // All places lie below an end, and so far a crash leaves what lies below it.
        ensures placed { B.IsHonest result.0 → Fits self.end (B.tables result.0) }
        ensures kept { IsTrue (D.is_clean result.1)
            → Keeps self.end (D.seen result.1) (D.may_leave result.1) }
    {
        let VolumeBooks {
            books,
            disk,
            end: _,
            failures: _,
            stores: _,
        } = self;
        (books, disk)
    }

    /// Writes an upload: its bytes to the volume, and then their place to the books below.
    fn write_upload(&mut self, alloc: Global, change: Change) -> Result<(), Fault>
        requires upload { has_body change ≡ true }
        ensures writes { WritesThrough (side_of B.Books D.Disk self.old.books self.old.disk)
            (side_of B.Books D.Disk self.new.books self.new.disk) change result }
        ensures counts { (self.new.failures ≡ self.old.failures)
            × (self.new.stores ≡ self.old.stores) }
    {
        match change {
            Change::Upload {
                name,
                project,
                file,
                record,
                body,
                ends_case,
            } => {
                let at = self.end;
                let (place, end) = put_body(alloc, &mut self.disk, at, body.bytes())?;
                self.end = end;
                drop(body);
                self.books.write(
                    alloc,
                    Change::Upload {
                        name,
                        project,
                        file,
                        record,
                        body: place,
                        ends_case,
                    },
                )
            }
            // By `requires` the change is an upload.
            _ => unreachable!(),
        }
    }

    /// Writes another change to the books below.
    fn write_other(&mut self, alloc: Global, change: Change) -> Result<(), Fault>
        requires other { has_body change ≡ false }
        ensures writes { WritesThrough (side_of B.Books D.Disk self.old.books self.old.disk)
            (side_of B.Books D.Disk self.new.books self.new.disk) change result }
        ensures counts { (self.new.failures ≡ self.old.failures)
            × (self.new.stores ≡ self.old.stores) }
    {
        self.books.write(alloc, change)
    }

    /// Writes a change.
    fn write_through(&mut self, alloc: Global, change: Change) -> Result<(), Fault>
        ensures writes { WritesThrough (side_of B.Books D.Disk self.old.books self.old.disk)
            (side_of B.Books D.Disk self.new.books self.new.disk) change result }
        ensures counts { (self.new.failures ≡ self.old.failures)
            × (self.new.stores ≡ self.old.stores) }
    {
        if has_body(&change) {
            self.write_upload(alloc, change)
        } else {
            self.write_other(alloc, change)
        }
    }

    /// The bytes of a file, if the books below have their place.
    fn find_bytes(&mut self, alloc: Global, file: &FileName) -> Result<Option<Sealed>, Fault>
        ensures finds { FindsThrough (side_of B.Books D.Disk self.old.books self.old.disk)
            (side_of B.Books D.Disk self.new.books self.new.disk) file.now result }
        // Whatever the volume returns.
        ensures declared { B.IsHonest self.new.books → IfOk result (λ it. IfSome it (λ bytes.
            IsDigestOf (B.tables self.old.books) file.now (sha256 bytes))) }
        ensures counts { (self.new.failures ≡ self.old.failures)
            × (self.new.stores ≡ self.old.stores) }
    {
        match self.books.kept_of(alloc, file)? {
            None => Ok(None),
            Some(kept) => {
                let bytes = read_stored(alloc, &mut self.disk, kept.stored.as_slice())?;
                match Sealed::new(bytes, kept.digest) {
                    Ok(sealed) => Ok(Some(sealed)),
                    Err(_bytes) => Err(Fault::Store),
                }
            }
        }
    }
}

impl<B: Places, D: Disk> Books for VolumeBooks<B, D> {
    ghost tables = { λ it. over (D.seen it.disk) (B.tables it.books) };

    ghost IsHonest = { λ it. B.IsHonest it.books × IsTrue (D.is_clean it.disk) };

    ghost IsClean = { λ it. B.IsClean it.books × IsTrue (D.is_clean it.disk) };

    ghost may_leave = { λ it.
        LeavesBoth (D.is_clean it.disk) (D.may_leave it.disk) (B.may_leave it.books) };

    ghost failures = { λ it. it.failures };

    ghost stores = { λ it. it.stores };

    fn failure_count(&self) -> u64 {
        self.failures
    }

    fn view(&mut self, alloc: Global, keys: &Keys) -> Result<View, Fault> {
        let found = self.books.view(alloc, keys);
        self.failures = next_count(self.failures, found.is_ok());
        self.stores = next_count(self.stores, !fails_by_store(&found));
        found
    }

    fn write(&mut self, alloc: Global, change: Change) -> Result<(), Fault> {
        let made = self.write_through(alloc, change);
        self.failures = next_count(self.failures, made.is_ok());
        self.stores = next_count(self.stores, !fails_by_store(&made));
        made
    }

    fn is_held(&mut self, alloc: Global, name: &NormalName) -> Result<bool, Fault> {
        let found = self.books.is_held(alloc, name);
        self.failures = next_count(self.failures, found.is_ok());
        self.stores = next_count(self.stores, !fails_by_store(&found));
        found
    }

    fn bytes_of(&mut self, alloc: Global, file: &FileName) -> Result<Option<Sealed>, Fault>
        ensures found { B.IsHonest self.new.books × IsTrue (D.is_clean self.new.disk)
            → Returns result
            (get (over (D.seen self.old.disk) (B.tables self.old.books)).bodies file.now) }
        ensures looks { LooksThrough (side_of B.Books D.Disk self.old.books self.old.disk)
            (side_of B.Books D.Disk self.new.books self.new.disk) (is_ok result) }
        ensures counts { (self.new.failures ≡ next_count self.old.failures (is_ok result))
            × CountsStoreFault self.old.stores self.new.stores (fails_by_store result) }
        // Whatever the volume returns: if the books below are honest, the bytes have the digest of the file's record.
        ensures declared { B.IsHonest self.new.books → IfOk result (λ it. IfSome it (λ bytes.
            IsDigestOf (B.tables self.old.books) file.now (sha256 bytes))) }
    {
        let found = self.find_bytes(alloc, file);
        self.failures = next_count(self.failures, found.is_ok());
        self.stores = next_count(self.stores, !fails_by_store(&found));
        found
    }

    fn names(&mut self, alloc: Global) -> Result<Vec<NameRow>, Fault> {
        let found = self.books.names(alloc);
        self.failures = next_count(self.failures, found.is_ok());
        self.stores = next_count(self.stores, !fails_by_store(&found));
        found
    }

    fn files_of(&mut self, alloc: Global, name: &NormalName) -> Result<Vec<FileRow>, Fault> {
        let found = self.books.files_of(alloc, name);
        self.failures = next_count(self.failures, found.is_ok());
        self.stores = next_count(self.stores, !fails_by_store(&found));
        found
    }

    fn walk_held<K: Taker<NameRow>>(
        &mut self,
        alloc: Global,
        taker: &mut K,
    ) -> Result<(), WalkEnd> {
        let ended = self.books.walk_held(alloc, taker);
        self.failures = next_count(self.failures, !has_fault(&ended));
        self.stores = next_count(self.stores, !ends_by_store(&ended));
        ended
    }

    fn walk_files<K: Taker<FileRow>>(
        &mut self,
        alloc: Global,
        name: &NormalName,
        taker: &mut K,
    ) -> Result<(), WalkEnd> {
        let ended = self.books.walk_files(alloc, name, taker);
        self.failures = next_count(self.failures, !has_fault(&ended));
        self.stores = next_count(self.stores, !ends_by_store(&ended));
        ended
    }

    ghost honest_is_clean = { λ it honest. (B.honest_is_clean it.books honest.0, honest.1) };

    ghost settled = { λ it honest T left. settled_over it.end (D.seen it.disk) (B.tables it.books)
        (B.may_leave it.books) (D.may_leave it.disk) T (B.settled it.books honest.0)
        (it.placed honest.0) (it.kept honest.1) left };
}

/// Whether a change is an upload.
fn has_body(change: &Change) -> bool
    ensures { result ≡ has_body change.now }
{
    matches!(change, Change::Upload { .. })
}
