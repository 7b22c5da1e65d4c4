//! Volumes in memory that stop after a number of calls, and what a crash leaves of them.
use sqlite_disk::{Crash, Disk, Fuse, Memory};
use std::alloc::AllocGlobal;
use std::process::Abort;

/// A file that fails and changes nothing from some call on.
pub(crate) type File = Fuse<Memory>;

/// A file with these bytes, all of them synced, that stops after this many calls.
pub(super) fn file(rt: &(impl Abort + AllocGlobal), bytes: &[u8], calls: u64) -> File {
    let mut memory = Memory::new(rt.alloc());
    memory.write_at(0, bytes).expect(rt, "room");
    memory.sync().expect(rt, "room");
    Fuse::new(memory, calls)
}

/// What becomes of the bytes that were written to a volume since it was synced. A disk may tear a write at any byte.
#[derive(Clone, Copy, Debug)]
pub(super) enum Outcome {
    /// The bytes stay, as if the program was killed.
    Kept,
    Lost,
    /// The first half of them stays.
    Torn,
    /// Other bytes are in their place.
    Garbled,
}

pub(super) const EACH_OUTCOME: &[Outcome] = &[
    Outcome::Kept,
    Outcome::Lost,
    Outcome::Torn,
    Outcome::Garbled,
];

/// A volume as it was written, and as it was synced.
pub(super) struct Image {
    pub(super) written: Vec<u8>,
    pub(super) synced: Vec<u8>,
}

impl Drop for Image {
    fn drop(self) {
        let Image {
            written: _written,
            synced: _synced,
        } = self;
    }
}

impl Image {
    pub(super) fn new(rt: &(impl Abort + AllocGlobal), mut file: File) -> Image {
        let written = copy(rt, &file);
        file.crash();
        let synced = copy(rt, &file);
        Image { written, synced }
    }

    /// The volume that a crash leaves. It does not stop.
    pub(super) fn left(&self, rt: &(impl Abort + AllocGlobal), outcome: Outcome) -> File {
        match outcome {
            Outcome::Kept => file(rt, &self.written, u64::MAX),
            Outcome::Lost => file(rt, &self.synced, u64::MAX),
            Outcome::Torn => self.torn(rt),
            Outcome::Garbled => self.garbled(rt),
        }
    }

    /// The bytes that were added are cut to their first half.
    fn torn(&self, rt: &(impl Abort + AllocGlobal)) -> File {
        let (written, synced) = (self.written.len(), self.synced.len());
        let length = synced.saturating_add(written.saturating_sub(synced) / 2);
        let torn = self.written.get(..length);
        file(rt, torn.expect(rt, "a longer volume"), u64::MAX)
    }

    /// Each byte that was added is another than the one that was written.
    fn garbled(&self, rt: &(impl Abort + AllocGlobal)) -> File {
        let mut bytes = Vec::from_slice(rt.alloc(), &self.written).expect(rt, "room");
        for byte in bytes.iter_mut().skip(self.synced.len()) {
            *byte = !*byte;
        }
        file(rt, &bytes, u64::MAX)
    }
}

/// The bytes of a volume.
fn copy(rt: &(impl Abort + AllocGlobal), file: &File) -> Vec<u8> {
    Vec::from_slice(rt.alloc(), file.inner().bytes()).expect(rt, "room")
}
