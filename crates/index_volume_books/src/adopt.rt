//! A volume taken together with the books that have its places.
ghost use Rattle.std.specs.Prelude.{◌≡◌, ◌≢◌, ◌<◌, ℕ, List, IfOk, OnOk, IfErr, IsTrue};
ghost use Rattle.index_digest.specs.Digest.{sha256};
ghost use Rattle.index_volume.specs.Places.{LiesBelow, bytes_at, place_end};
ghost use Rattle.index_volume_books.specs.Taken.{AreFit, AreUntaken, AreTaken, LooksAtLast};
ghost use Rattle.index_volume_books.specs.Through.{side_of};

use crate::books::VolumeBooks;
use crate::places::{Ends, Kept, Places};
use index_digest::Digest256;
use index_names::FileName;
use index_rules::Fault;
use index_volume::{ReadFault, read, read_place, settle};
use sqlite_disk::Disk;
use std::alloc::Global;

/// Why a volume is not taken together with books.
#[derive(Clone, Copy, Debug, PartialEq, Eq)]
pub enum TakeFault {
    OutOfMemory,
    /// The books or the volume failed, or what is stored for a file is not a place.
    Store,
    /// A place of the books ends behind the end of the volume.
    TooShort,
    /// The place that ends last has other bytes in this volume than those of its file.
    OtherVolume,
}

/// Books and a volume that were not taken together, and why.
#[derive(Drop)]
pub struct Untaken<B: Places, D: Disk> {
    pub why: TakeFault,
    pub books: B,
    pub disk: D,
}

impl<B: Ends, D: Disk> VolumeBooks<B, D> {
    /// Takes books together with the volume that their places are of. The volume is synced, and the bytes at the place
    /// that ends last are read. No table changes.
    ///
    /// # Errors
    ///
    /// - `TooShort`: the place that ends last ends behind the end of the volume.
    /// - `OtherVolume`: at this place the volume has bytes with another digest than that of the file.
    /// - `OutOfMemory`: memory ran out.
    /// - `Store`: the books or the volume failed, or what is stored for a file is not a place.
    pub fn adopt(alloc: Global, books: B, disk: D) -> Result<VolumeBooks<B, D>, Untaken<B, D>>
        ensures taken { IfOk result (λ it. AreTaken (side_of B.Books D.Disk books disk)
            (side_of B.Books D.Disk it.books it.disk)) }
        ensures counts { IfOk result (λ it. (it.failures ≡ 0) × (it.stores ≡ 0)) }
        ensures refused { IfErr result (λ it. AreUntaken it.why (side_of B.Books D.Disk books disk)
            (side_of B.Books D.Disk it.books it.disk)) }
    {
        let mut books = books;
        let mut disk = disk;
        match fit(alloc, &mut books, &mut disk) {
            Ok(end) => Ok(VolumeBooks::new(books, disk, end)),
            Err(why) => Err(Untaken { why, books, disk }),
        }
    }
}

/// Syncs a volume, and looks whether it is that of the books. Returns its end.
fn fit<B: Ends, D: Disk>(alloc: Global, books: &mut B, disk: &mut D) -> Result<usize, TakeFault>
    ensures fit { IfOk result (λ end. AreFit end (side_of B.Books D.Disk books.old disk.old)
        (side_of B.Books D.Disk books.new disk.new)) }
    ensures refused { IfErr result (λ why. AreUntaken why
        (side_of B.Books D.Disk books.old disk.old) (side_of B.Books D.Disk books.new disk.new)) }
{
    let Some(end) = settle(disk) else {
        return Err(TakeFault::Store);
    };
    match books.last_file(alloc) {
        Ok(None) => Ok(end),
        Ok(Some(last)) => match test_last(alloc, books, disk, end, &last) {
            Ok(()) => Ok(end),
            Err(why) => Err(why),
        },
        Err(fault) => Err(take_fault_of(fault)),
    }
}

/// Looks whether a volume with this end has the bytes of a file at its place.
fn test_last<B: Ends, D: Disk>(
    alloc: Global,
    books: &mut B,
    disk: &mut D,
    end: usize,
    last: &FileName,
) -> Result<(), TakeFault>
    ensures looks { LooksAtLast end last.now (side_of B.Books D.Disk books.old disk.old)
        (side_of B.Books D.Disk books.new disk.new) result }
{
    match books.kept_of(alloc, last) {
        Ok(Some(kept)) => test_kept(alloc, disk, end, &kept),
        // Honest books have something of their last file.
        Ok(None) => Err(TakeFault::Store),
        Err(fault) => Err(take_fault_of(fault)),
    }
}

/// Looks whether a volume with this end has the bytes of a digest at the place that is kept with it.
fn test_kept<D: Disk>(alloc: Global, disk: &mut D, end: usize, kept: &Kept) -> Result<(), TakeFault>
    ensures clean { IsTrue (D.is_clean disk.new) → IsTrue (D.is_clean disk.old) }
    ensures same { D.seen disk.new ≡ D.seen disk.old }
    ensures crash { (c : List ℕ) → D.may_leave disk.new c → D.may_leave disk.old c }
    ensures below { OnOk result (LiesBelow end kept.now.stored.items) }
    ensures short { IfErr result (λ why.
        why ≡ TakeFault.TooShort → end < place_end kept.now.stored.items) }
    ensures own { OnOk result (IsTrue (D.is_clean disk.new)
        → sha256 (bytes_at (D.seen disk.old) kept.now.stored.items) ≡ kept.now.digest) }
    ensures other { IfErr result (λ why. why ≡ TakeFault.OtherVolume → IsTrue (D.is_clean disk.new)
        → sha256 (bytes_at (D.seen disk.old) kept.now.stored.items) ≢ kept.now.digest) }
{
    let Some(place) = read_place(kept.stored.as_slice()) else {
        return Err(TakeFault::Store);
    };
    if place.size > end || place.at > end - place.size {
        return Err(TakeFault::TooShort);
    }
    match read(alloc, disk, place.at, place.size) {
        Ok(bytes) => {
            if Digest256::of(bytes.as_slice()) == kept.digest {
                Ok(())
            } else {
                Err(TakeFault::OtherVolume)
            }
        }
        Err(ReadFault::OutOfMemory) => Err(TakeFault::OutOfMemory),
        Err(ReadFault::Failed) => Err(TakeFault::Store),
    }
}

/// A fault of the books as the reason for which a volume is not taken.
fn take_fault_of(fault: Fault) -> TakeFault
    ensures short { result ≢ TakeFault.TooShort }
    ensures other { result ≢ TakeFault.OtherVolume }
{
    match fault {
        Fault::OutOfMemory => TakeFault::OutOfMemory,
        Fault::Store => TakeFault::Store,
    }
}
