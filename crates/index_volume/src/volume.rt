//! Bytes added to the end of a volume, and read again.
ghost use Rattle.std.specs.Prelude.{◌≡◌, ◌+◌, IfOk, IfSome, IsTrue, length, take, drop, ℕ, List};
ghost use Rattle.sqlite_disk.specs.Disk.{Only};
ghost use Rattle.index_volume.specs.Volume.{Keeps};

use sqlite_disk::Disk;
use std::alloc::{AllocError, Global};

/// Why bytes could not be read.
#[derive(Clone, Copy, Debug, PartialEq, Eq)]
pub enum ReadFault {
    OutOfMemory,
    /// The volume failed, or has no such place.
    Failed,
}

impl From<AllocError> for ReadFault {
    fn from(_error: AllocError) -> ReadFault {
        ReadFault::OutOfMemory
    }
}

/// Writes bytes at the end of a volume and syncs them. Returns whether both succeeded. What lies below the end stays.
pub fn append<D: Disk>(disk: &mut D, end: usize, bytes: &[u8]) -> bool
    ensures clean { D.is_clean disk.new ≡ D.is_clean disk.old }
    ensures kept { Keeps end (D.seen disk.old) (D.may_leave disk.old)
        → Keeps end (D.seen disk.new) (D.may_leave disk.new)
        × (take end (D.seen disk.new) ≡ take end (D.seen disk.old)) }
    ensures added { IsTrue result → Keeps end (D.seen disk.old) (D.may_leave disk.old)
        → Keeps (end + length bytes.now) (D.seen disk.new) (D.may_leave disk.new)
        × (take (length bytes.now) (drop end (D.seen disk.new)) ≡ bytes.now) }
    ensures alone { IsTrue result → Only (D.seen disk.new) (D.may_leave disk.new) }
{
    if !disk.may_be_used() {
        return false;
    }
    match disk.write_at(end, bytes) {
        Ok(()) => match disk.sync() {
            Ok(()) => true,
            Err(_) => false,
        },
        Err(_) => false,
    }
}

/// So many bytes of a volume from an offset on.
///
/// # Errors
///
/// `OutOfMemory` if memory runs out, and `Failed` if the volume fails or has no such place.
pub fn read<D: Disk>(
    alloc: Global,
    disk: &mut D,
    at: usize,
    size: usize,
) -> Result<Vec<u8>, ReadFault>
    ensures clean { IsTrue (D.is_clean disk.new) → IsTrue (D.is_clean disk.old) }
    ensures same { D.seen disk.new ≡ D.seen disk.old }
    ensures crash { (c : List ℕ) → D.may_leave disk.new c → D.may_leave disk.old c }
    ensures read { IsTrue (D.is_clean disk.new)
        → IfOk result (λ it. it.items ≡ take size (drop at (D.seen disk.old))) }
{
    if !disk.may_be_used() {
        return Err(ReadFault::Failed);
    }
    let mut bytes = Vec::new(alloc);
    if size == 0 {
        return Ok(bytes);
    }
    bytes.resize(size, 0)?;
    if disk.read_at(at, bytes.as_mut_slice()).is_err() {
        return Err(ReadFault::Failed);
    }
    Ok(bytes)
}

/// Syncs a volume. Returns its length in bytes, or `None` if the volume fails. A crash then leaves it as it is.
pub fn settle<D: Disk>(disk: &mut D) -> Option<usize>
    ensures clean { IsTrue (D.is_clean disk.new) → IsTrue (D.is_clean disk.old) }
    ensures same { D.seen disk.new ≡ D.seen disk.old }
    ensures crash { (c : List ℕ) → D.may_leave disk.new c → D.may_leave disk.old c }
    ensures end { IfSome result (λ end.
        IsTrue (D.is_clean disk.new) → end ≡ length (D.seen disk.old)) }
    ensures alone { IfSome result (λ end. Only (D.seen disk.old) (D.may_leave disk.new)) }
{
    if !disk.may_be_used() {
        return None;
    }
    match disk.len() {
        Ok(end) => match disk.sync() {
            Ok(()) => Some(end),
            Err(_) => None,
        },
        Err(_) => None,
    }
}
