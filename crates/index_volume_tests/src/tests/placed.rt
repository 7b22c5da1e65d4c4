//! Books over others, whose bodies are places.
ghost use Rattle.std.specs.Prelude.{◌≡◌, not};
ghost use Rattle.index_rules.specs.Walks.{Walks, WalksSome, has_fault};
ghost use Rattle.index_io.specs.Counts.{next_count};

use index_digest::{Digest256, Sealed};
use index_names::{FileName, NormalName};
use index_rules::{Books, Change, Fault, FileRow, Keys, NameRow, Taker, View, WalkEnd};
use index_volume::read_place;
use index_volume_books::{Ends, Kept, Places};
use std::alloc::{AllocError, Global};

/// A file that was uploaded, and the digest of its bytes.
pub(super) struct Uploaded {
    file: FileName,
    digest: Digest256,
}

impl Drop for Uploaded {
    fn drop(self) {
        let Uploaded {
            file: _file,
            digest: _digest,
        } = self;
    }
}

/// Books that take each body of others for a place, and keep the digests in the records. No contract says what they
/// hold.
pub(crate) struct PlacedBooks<B: Books + Drop> {
    books: B,
    uploads: Vec<Uploaded>,
    /// Each look for a place fails in this way.
    pub(super) look_fault: Option<Fault>,
    /// So many changes are made from now on, and then reported as failed.
    pub(super) write_faults: u32,
    failures: u64,
}

impl<B: Books + Drop> Drop for PlacedBooks<B> {
    fn drop(self) {
        let PlacedBooks {
            books: _books,
            uploads: _uploads,
            look_fault: _look_fault,
            write_faults: _write_faults,
            failures: _failures,
        } = self;
    }
}

/// What a change uploads.
fn uploaded_by(change: &Change) -> Result<Option<Uploaded>, AllocError> {
    match change {
        Change::Upload { file, record, .. } => Ok(Some(Uploaded {
            file: file.clone()?,
            digest: record.digest,
        })),
        _ => Ok(None),
    }
}

impl<B: Books + Drop> PlacedBooks<B> {
    pub(super) fn new(alloc: Global, books: B) -> PlacedBooks<B> {
        PlacedBooks {
            books,
            uploads: Vec::new(alloc),
            look_fault: None,
            write_faults: 0,
            failures: 0,
        }
    }

    /// Counts a call, by whether it answered no fault.
    fn count(&mut self, succeeds: bool)
        ensures { self.new.failures ≡ next_count self.old.failures succeeds }
    {
        if !succeeds {
            self.failures = self.failures.saturating_add(1);
        }
    }

    /// Counts a walk, by how it ended.
    fn count_walk(&mut self, ended: &Result<(), WalkEnd>)
        ensures { self.new.failures ≡ next_count self.old.failures (not (has_fault ended.now)) }
    {
        match ended {
            Ok(()) | Err(WalkEnd::Stopped) => {}
            Err(WalkEnd::OutOfMemory | WalkEnd::Store) => self.count(false),
        }
    }

    /// Keeps the digest of an upload.
    fn note(&mut self, uploaded: Uploaded) -> Result<(), AllocError>
        ensures { self.new.failures ≡ self.old.failures }
    {
        match self.uploads.push(uploaded) {
            Ok(()) => Ok(()),
            Err(error) => Err(AllocError::from(error)),
        }
    }

    /// A change, which is not counted.
    fn make(&mut self, alloc: Global, change: Change) -> Result<(), Fault>
        ensures { self.new.failures ≡ self.old.failures }
    {
        let uploaded = uploaded_by(&change);
        self.books.write(alloc, change)?;
        if let Some(uploaded) = uploaded? {
            self.note(uploaded)?;
        }
        if self.write_faults > 0 {
            self.write_faults -= 1;
            return Err(Fault::Store);
        }
        Ok(())
    }

    /// The digest of a file that was uploaded last under its name.
    fn digest_of(&self, file: &FileName) -> Option<Digest256> {
        let mut digest = None;
        for uploaded in self.uploads.iter() {
            if uploaded.file == *file {
                digest = Some(uploaded.digest);
            }
        }
        digest
    }

    /// What is kept of a file. The look is not counted.
    fn find_kept(&mut self, alloc: Global, file: &FileName) -> Result<Option<Kept>, Fault>
        ensures { self.new.failures ≡ self.old.failures }
    {
        if let Some(fault) = self.look_fault {
            return Err(fault);
        }
        let Some(sealed) = self.books.bytes_of(alloc, file)? else {
            return Ok(None);
        };
        let Some(digest) = self.digest_of(file) else {
            return Err(Fault::Store);
        };
        let stored = Vec::from_slice(alloc, sealed.bytes())?;
        Ok(Some(Kept { digest, stored }))
    }
}

/// Where the place of a file ends, if it has one.
fn end_of<B: Books>(
    alloc: Global,
    books: &mut B,
    uploaded: &Uploaded,
) -> Result<Option<usize>, Fault> {
    let Some(sealed) = books.bytes_of(alloc, &uploaded.file)? else {
        return Ok(None);
    };
    match read_place(sealed.bytes()) {
        Some(place) => Ok(Some(place.at.saturating_add(place.size))),
        None => Err(Fault::Store),
    }
}

/// Of the files that were uploaded, the one whose place ends last.
fn last_of<B: Books>(
    alloc: Global,
    books: &mut B,
    uploads: &[Uploaded],
) -> Result<Option<FileName>, Fault> {
    let mut last: Option<(usize, usize)> = None;
    for (at, uploaded) in uploads.iter().enumerate() {
        if let Some(end) = end_of(alloc, books, uploaded)? {
            match last {
                Some((_, latest)) if end <= latest => {}
                _ => last = Some((at, end)),
            }
        }
    }
    let Some((at, _)) = last else {
        return Ok(None);
    };
    match uploads.get(at) {
        Some(uploaded) => Ok(Some(uploaded.file.clone()?)),
        None => Ok(None),
    }
}

impl<B: Books + Drop> Books for PlacedBooks<B> {
    ghost use Rattle.std.specs.FinMap.{empty};
    ghost use Rattle.index_io.specs.Counts.{last_count};

    ghost tables = { λ _. record {
      users = empty;
      names = empty;
      owners = empty;
      files = empty;
      bodies = empty;
      yanks = empty;
      cases = empty;
      bans = empty;
    } };

    ghost IsHonest = { λ _. ⊥ };

    ghost IsClean = { λ _. ⊥ };

    ghost may_leave = { λ _ _. ⊥ };

    ghost failures = { λ books. books.failures };

    ghost stores = { λ _. last_count };

    fn failure_count(&self) -> u64 {
        self.failures
    }

    fn view(&mut self, alloc: Global, keys: &Keys) -> Result<View, Fault> {
        let found = self.books.view(alloc, keys);
        self.count(found.is_ok());
        found
    }

    fn write(&mut self, alloc: Global, change: Change) -> Result<(), Fault> {
        let written = self.make(alloc, change);
        self.count(written.is_ok());
        written
    }

    fn is_held(&mut self, alloc: Global, name: &NormalName) -> Result<bool, Fault> {
        let found = self.books.is_held(alloc, name);
        self.count(found.is_ok());
        found
    }

    fn bytes_of(&mut self, alloc: Global, file: &FileName) -> Result<Option<Sealed>, Fault> {
        let found = self.books.bytes_of(alloc, file);
        self.count(found.is_ok());
        found
    }

    fn names(&mut self, alloc: Global) -> Result<Vec<NameRow>, Fault> {
        let found = self.books.names(alloc);
        self.count(found.is_ok());
        found
    }

    fn files_of(&mut self, alloc: Global, name: &NormalName) -> Result<Vec<FileRow>, Fault> {
        let found = self.books.files_of(alloc, name);
        self.count(found.is_ok());
        found
    }

    fn walk_held<K: Taker<NameRow>>(
        &mut self,
        alloc: Global,
        taker: &mut K,
    ) -> Result<(), WalkEnd> {
        let ended = self.books.walk_held(alloc, taker);
        self.count_walk(&ended);
        ended
    }

    fn walk_files<K: Taker<FileRow>>(
        &mut self,
        alloc: Global,
        name: &NormalName,
        taker: &mut K,
    ) -> Result<(), WalkEnd> {
        let ended = self.books.walk_files(alloc, name, taker);
        self.count_walk(&ended);
        ended
    }

    ghost honest_is_clean = { λ _ honest. honest };

    ghost settled = { λ _ honest _ _. absurd honest };
}

impl<B: Books + Drop> Places for PlacedBooks<B> {
    fn kept_of(&mut self, alloc: Global, file: &FileName) -> Result<Option<Kept>, Fault> {
        let kept = self.find_kept(alloc, file);
        self.count(kept.is_ok());
        kept
    }
}

impl<B: Books + Drop> Ends for PlacedBooks<B> {
    fn last_file(&mut self, alloc: Global) -> Result<Option<FileName>, Fault> {
        let last = match self.look_fault {
            Some(fault) => Err(fault),
            None => last_of(alloc, &mut self.books, self.uploads.as_slice()),
        };
        self.count(last.is_ok());
        last
    }
}
