//! What a crash may leave of two files: of what was written to each since it was synced all, nothing, or a part.
use super::Told;
use super::files::{File, file};
use sqlite::Files;
use sqlite_disk::Crash;
use std::alloc::AllocGlobal;
use std::process::Abort;

/// What becomes of the bytes that were written to a file since it was synced. A disk may tear a write at any byte, and
/// may make writes in any order.
#[derive(Clone, Copy, Debug)]
pub(super) enum Outcome {
    /// The bytes stay, as if the program was killed.
    Kept,
    Lost,
    /// The first and then every second sector of 512 bytes stays.
    EvenSectors,
    /// Every second page of 4,096 bytes stays, but not the first. The file's length is between the old and the new.
    OddPages,
    /// Other bytes are in their place.
    Garbled,
}

const EACH_OUTCOME: &[Outcome] = &[
    Outcome::Kept,
    Outcome::Lost,
    Outcome::EvenSectors,
    Outcome::OddPages,
    Outcome::Garbled,
];

/// If all that was written was synced, nothing is lost.
const KEPT: &[Outcome] = &[Outcome::Kept];

/// A file as it was written, and as it was synced.
#[derive(PartialEq, Eq)]
struct Image {
    written: Vec<u8>,
    synced: Vec<u8>,
}

impl Drop for Image {
    fn drop(self) {
        let Image {
            written: _written,
            synced: _synced,
        } = self;
    }
}

impl Image {
    fn new(rt: &(impl Abort + AllocGlobal), mut file: File) -> Image {
        let written = copy(rt, &file);
        file.crash();
        let synced = copy(rt, &file);
        Image { written, synced }
    }

    /// The outcomes that differ.
    fn outcomes(&self) -> &'static [Outcome] {
        if self.written == self.synced {
            KEPT
        } else {
            EACH_OUTCOME
        }
    }

    /// The file that a crash leaves. It does not stop.
    fn left(&self, rt: &(impl Abort + AllocGlobal), outcome: Outcome) -> File {
        let (written, synced) = (self.written.len(), self.synced.len());
        match outcome {
            Outcome::Kept => file(rt, &self.written, u64::MAX),
            Outcome::Lost => file(rt, &self.synced, u64::MAX),
            Outcome::EvenSectors => self.torn(rt, outcome, written.max(synced)),
            Outcome::OddPages => self.torn(rt, outcome, middle(written, synced)),
            Outcome::Garbled => self.garbled(rt),
        }
    }

    /// Some sectors as they were written, and the others as they were synced, up to this length.
    fn torn(&self, rt: &(impl Abort + AllocGlobal), outcome: Outcome, length: usize) -> File {
        let mut bytes = Vec::new(rt.alloc());
        for at in (0..length).step_by(512) {
            let sectors = if stands(outcome, at) {
                &self.written
            } else {
                &self.synced
            };
            add_sector(rt, &mut bytes, sectors, at, length);
        }
        file(rt, &bytes, u64::MAX)
    }

    /// Each byte that was changed is another than the one that was written.
    fn garbled(&self, rt: &(impl Abort + AllocGlobal)) -> File {
        let mut bytes = Vec::from_slice(rt.alloc(), &self.written).expect(rt, "room");
        for (at, byte) in bytes.iter_mut().enumerate() {
            if self.synced.get(at).copied() != Some(*byte) {
                *byte = !*byte;
            }
        }
        file(rt, &bytes, u64::MAX)
    }
}

/// A length between two.
fn middle(one: usize, other: usize) -> usize {
    one.min(other).saturating_add(one.abs_diff(other) / 2)
}

/// Whether the sector at this place stands as it was written.
fn stands(outcome: Outcome, at: usize) -> bool {
    match outcome {
        Outcome::EvenSectors => at / 512 % 2 == 0,
        Outcome::OddPages => at / 4_096 % 2 == 1,
        _ => true,
    }
}

/// Adds the sector at a place, up to a length, with zeros if it has no bytes.
fn add_sector(rt: &impl Abort, bytes: &mut Vec<u8>, sectors: &[u8], at: usize, length: usize) {
    let end = at.saturating_add(512).min(length);
    if let Some(sector) = sectors.get(at..end.min(sectors.len())) {
        bytes.extend_from_slice(sector).expect(rt, "room");
    }
    bytes.resize(end, 0).expect(rt, "room");
}

/// The bytes of a file.
fn copy(rt: &(impl Abort + AllocGlobal), file: &File) -> Vec<u8> {
    Vec::from_slice(rt.alloc(), file.inner().bytes()).expect(rt, "room")
}

/// What a run reported, and what it left of its two files.
#[derive(PartialEq, Eq)]
pub(super) struct Left {
    pub(super) told: Told,
    log: Image,
    db: Image,
}

impl Drop for Left {
    fn drop(self) {
        let Left {
            told: _told,
            log: _log,
            db: _db,
        } = self;
    }
}

impl Left {
    pub(super) fn new(rt: &(impl Abort + AllocGlobal), told: Told, files: Files<File>) -> Left {
        let Files { log, db } = files;
        Left {
            told,
            log: Image::new(rt, log),
            db: Image::new(rt, db),
        }
    }

    pub(super) fn outcomes_of_log(&self) -> &'static [Outcome] {
        self.log.outcomes()
    }

    pub(super) fn outcomes_of_database(&self) -> &'static [Outcome] {
        self.db.outcomes()
    }

    /// The files that a crash leaves.
    pub(super) fn files(
        &self,
        rt: &(impl Abort + AllocGlobal),
        of_log: Outcome,
        of_database: Outcome,
    ) -> Files<File> {
        Files {
            log: self.log.left(rt, of_log),
            db: self.db.left(rt, of_database),
        }
    }
}
