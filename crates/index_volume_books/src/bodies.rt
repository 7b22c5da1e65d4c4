//! The bytes of files in a volume, as the books above it put and find them.
ghost use Rattle.std.specs.Prelude.{◌≡◌, ◌≤◌, ℕ, List, take, IfOk, OnOk, IsTrue};
ghost use Rattle.sqlite_disk.specs.Disk.{Only};
ghost use Rattle.index_volume.specs.Places.{LiesBelow, bytes_at, place_text};
ghost use Rattle.index_volume.specs.Volume.{Keeps};

use index_digest::{Digest256, Sealed};
use index_rules::Fault;
use index_volume::{Place, ReadFault, append, place_text, read, read_place};
use sqlite_disk::Disk;
use std::alloc::Global;

/// The text of a place, sealed.
fn sealed_place(alloc: Global, place: Place) -> Result<Sealed, Fault>
    ensures { IfOk result (λ sealed. sealed ≡ place_text place.at place.size) }
{
    let text = place_text(alloc, place)?;
    let digest = Digest256::of(text.as_slice());
    match Sealed::new(text, digest) {
        Ok(sealed) => Ok(sealed),
        Err(_text) => Err(Fault::Store),
    }
}

/// Adds bytes to a volume. Returns the text of their place, and the end after them.
///
/// # Errors
///
/// `OutOfMemory` if memory runs out, and `Store` if the volume fails or would be longer than a file can be.
#[tactic(auto, using(crate::proofs::ThroughLemmas::place_read))]
pub fn put_body<D: Disk>(
    alloc: Global,
    disk: &mut D,
    at: usize,
    bytes: &[u8],
) -> Result<(Sealed, usize), Fault>
    ensures clean { D.is_clean disk.new ≡ D.is_clean disk.old }
    ensures kept { Keeps at (D.seen disk.old) (D.may_leave disk.old)
        → Keeps at (D.seen disk.new) (D.may_leave disk.new)
        × (take at (D.seen disk.new) ≡ take at (D.seen disk.old)) }
    ensures added { IfOk result (λ it. Keeps at (D.seen disk.old) (D.may_leave disk.old)
        → Keeps it.1 (D.seen disk.new) (D.may_leave disk.new)
        × (bytes_at (D.seen disk.new) it.0 ≡ bytes.now)) }
    ensures within { IfOk result (λ it. (at ≤ it.1) × LiesBelow it.1 it.0) }
    ensures alone { OnOk result (Only (D.seen disk.new) (D.may_leave disk.new)) }
{
    let size = bytes.len();
    let Some(end) = at.checked_add(size) else {
        return Err(Fault::Store);
    };
    let place = sealed_place(alloc, Place { at, size })?;
    if append(disk, at, bytes) {
        Ok((place, end))
    } else {
        Err(Fault::Store)
    }
}

/// The bytes at a stored place.
///
/// # Errors
///
/// `OutOfMemory` if memory runs out, and `Store` if the volume fails, or if what is stored is not a place or the volume
/// has no such place.
pub fn read_stored<D: Disk>(alloc: Global, disk: &mut D, stored: &[u8]) -> Result<Vec<u8>, Fault>
    ensures clean { IsTrue (D.is_clean disk.new) → IsTrue (D.is_clean disk.old) }
    ensures same { D.seen disk.new ≡ D.seen disk.old }
    ensures crash { (c : List ℕ) → D.may_leave disk.new c → D.may_leave disk.old c }
    ensures read { IsTrue (D.is_clean disk.new)
        → IfOk result (λ it. it.items ≡ bytes_at (D.seen disk.old) stored.now) }
{
    let Some(place) = read_place(stored) else {
        return Err(Fault::Store);
    };
    match read(alloc, disk, place.at, place.size) {
        Ok(bytes) => Ok(bytes),
        Err(ReadFault::OutOfMemory) => Err(Fault::OutOfMemory),
        Err(ReadFault::Failed) => Err(Fault::Store),
    }
}
