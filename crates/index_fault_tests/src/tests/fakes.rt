//! Readers, writers and books that fail.
ghost use Rattle.std.specs.Prelude.{◌≡◌, not};
ghost use Rattle.index_rules.specs.Walks.{Walks, WalksSome, has_fault};
ghost use Rattle.index_io.specs.Counts.{next_count};

use index_digest::Sealed;
use index_names::{FileName, NormalName};
use index_rules::{Books, Change, Fault, FileRow, Keys, NameRow, Taker, View, WalkEnd};
use index_test_support::ShortReader;
use std::alloc::Global;
use std::io;
use std::io::{Error, ErrorKind, Read, Write};

/// A reader that gives these bytes, and then fails.
pub(super) fn failing(bytes: &[u8]) -> ShortReader<'_> {
    ShortReader {
        rest: bytes,
        at_a_time: usize::MAX,
        fails: true,
    }
}

/// Gives its bytes. Each read is interrupted once, and then tried again.
#[derive(Drop)]
pub(super) struct InterruptedReader<'a> {
    pub(super) rest: &'a [u8],
    pub(super) was_interrupted: bool,
}

impl Read for InterruptedReader<'_> {
    fn read(&mut self, buf: &mut [u8]) -> io::Result<usize> {
        self.was_interrupted = !self.was_interrupted;
        if self.was_interrupted {
            return Err(Error::from(ErrorKind::Interrupted));
        }
        Read::read(&mut self.rest, buf)
    }
}

/// Takes at most three bytes at a time. Each write is interrupted once, and then tried again.
#[derive(Drop)]
pub(super) struct InterruptedWriter<'a> {
    pub(super) taken: &'a mut Vec<u8>,
    pub(super) was_interrupted: bool,
}

impl Write for InterruptedWriter<'_> {
    fn write(&mut self, buf: &[u8]) -> io::Result<usize> {
        self.was_interrupted = !self.was_interrupted;
        if self.was_interrupted {
            return Err(Error::from(ErrorKind::Interrupted));
        }
        let count = buf.len().min(3);
        self.taken.extend_from_slice(&buf[..count])?;
        Ok(count)
    }

    fn flush(&mut self) -> io::Result<()> {
        Ok(())
    }
}

/// A call of the books.
#[derive(Clone, Copy, Debug, PartialEq, Eq, Hash)]
pub(super) enum BooksCall {
    View,
    Write,
    IsHeld,
    BytesOf,
    Names,
    FilesOf,
    WalkHeld,
    WalkFiles,
    /// A walk over the held names, after its first row.
    HeldRow,
    /// A walk over the files of a name, after its first row.
    FilesRow,
    /// Every call, as of a store that is shut.
    Every,
}

/// Passes a name to a taker, as a walk does that then ends with this fault.
fn hand_name<K: Taker<NameRow>>(taker: &mut K, row: &NameRow, fault: Fault) -> Result<(), WalkEnd>
    ensures given { (rows : _) × Walks K.takes K.stops rows taker.old taker.new result }
{
    if taker.take(row) {
        Err(WalkEnd::from(fault))
    } else {
        Err(WalkEnd::Stopped)
    }
}

/// Passes a file to a taker, as a walk does that then ends with this fault.
fn hand_file<K: Taker<FileRow>>(taker: &mut K, row: &FileRow, fault: Fault) -> Result<(), WalkEnd>
    ensures given { (rows : _) × Walks K.takes K.stops rows taker.old taker.new result }
{
    if taker.take(row) {
        Err(WalkEnd::from(fault))
    } else {
        Err(WalkEnd::Stopped)
    }
}

/// A walk over the held names that ends with this fault after the first row.
fn hand_first_name<B: Books, K: Taker<NameRow>>(
    books: &mut B,
    alloc: Global,
    taker: &mut K,
    fault: Fault,
) -> Result<(), WalkEnd>
    ensures { WalksSome K.takes K.stops taker.old taker.new result }
{
    let rows = books.names(alloc)?;
    match rows.first() {
        Some(row) => hand_name(taker, row, fault),
        None => Err(WalkEnd::from(fault)),
    }
}

/// A walk over the files of a name that ends with this fault after the first row.
fn hand_first_file<B: Books, K: Taker<FileRow>>(
    books: &mut B,
    alloc: Global,
    name: &NormalName,
    taker: &mut K,
    fault: Fault,
) -> Result<(), WalkEnd>
    ensures { WalksSome K.takes K.stops taker.old taker.new result }
{
    let rows = books.files_of(alloc, name)?;
    match rows.first() {
        Some(row) => hand_file(taker, row, fault),
        None => Err(WalkEnd::from(fault)),
    }
}

/// Books of which one call fails, after this many that succeed. They count the calls that failed. No contract says what
/// they hold.
pub(super) struct FailingBooks<B: Books + Drop> {
    pub(super) books: B,
    pub(super) failing: BooksCall,
    pub(super) fault: Fault,
    pub(super) after: u32,
    pub(super) failures: u64,
}

impl<B: Books + Drop> Drop for FailingBooks<B> {
    fn drop(self) {
        let FailingBooks {
            books: _books,
            failing: _failing,
            fault: _fault,
            after: _after,
            failures: _failures,
        } = self;
    }
}

impl<B: Books + Drop> FailingBooks<B> {
    /// Books of which this call fails, after this many that succeed.
    pub(super) fn new(books: B, failing: BooksCall, fault: Fault, after: u32) -> FailingBooks<B> {
        FailingBooks {
            books,
            failing,
            fault,
            after,
            failures: 0,
        }
    }

    /// Whether this call fails now.
    fn fails(&mut self, call: BooksCall) -> bool
        ensures { self.new.failures ≡ self.old.failures }
    {
        if self.failing != call && self.failing != BooksCall::Every {
            return false;
        }
        if self.after == 0 {
            return true;
        }
        self.after -= 1;
        false
    }

    /// Counts a call, by whether it answered no fault.
    fn count(&mut self, succeeds: bool)
        ensures { self.new.failures ≡ next_count self.old.failures succeeds }
    {
        if !succeeds {
            self.failures = self.failures.saturating_add(1);
        }
    }

    /// Counts a walk, by how it ended.
    fn count_walk(&mut self, ended: &Result<(), WalkEnd>)
        ensures { self.new.failures ≡ next_count self.old.failures (not (has_fault ended.now)) }
    {
        match ended {
            Ok(()) | Err(WalkEnd::Stopped) => {}
            Err(WalkEnd::OutOfMemory | WalkEnd::Store) => self.count(false),
        }
    }

    /// A walk over the held names, which is not counted.
    fn hand_names<K: Taker<NameRow>>(&mut self, alloc: Global, taker: &mut K) -> Result<(), WalkEnd>
        ensures { WalksSome K.takes K.stops taker.old taker.new result
            × (self.new.failures ≡ self.old.failures) }
    {
        if self.fails(BooksCall::WalkHeld) {
            return Err(WalkEnd::from(self.fault));
        }
        if self.fails(BooksCall::HeldRow) {
            return hand_first_name(&mut self.books, alloc, taker, self.fault);
        }
        self.books.walk_held(alloc, taker)
    }

    /// A walk over the files of a name, which is not counted.
    fn hand_files<K: Taker<FileRow>>(
        &mut self,
        alloc: Global,
        name: &NormalName,
        taker: &mut K,
    ) -> Result<(), WalkEnd>
        ensures { WalksSome K.takes K.stops taker.old taker.new result
            × (self.new.failures ≡ self.old.failures) }
    {
        if self.fails(BooksCall::WalkFiles) {
            return Err(WalkEnd::from(self.fault));
        }
        if self.fails(BooksCall::FilesRow) {
            return hand_first_file(&mut self.books, alloc, name, taker, self.fault);
        }
        self.books.walk_files(alloc, name, taker)
    }

    /// The books, of which no call fails.
    pub(super) fn into_books(self) -> B {
        let FailingBooks {
            books,
            failing: _failing,
            fault: _fault,
            after: _after,
            failures: _failures,
        } = self;
        books
    }
}

impl<B: Books + Drop> Books for FailingBooks<B> {
    ghost use Rattle.std.specs.FinMap.{empty};
    ghost use Rattle.index_io.specs.Counts.{last_count};

    ghost tables = { λ _. record {
      users = empty;
      names = empty;
      owners = empty;
      files = empty;
      bodies = empty;
      yanks = empty;
      cases = empty;
      bans = empty;
    } };

    ghost IsHonest = { λ _. ⊥ };

    ghost IsClean = { λ _. ⊥ };

    ghost may_leave = { λ _ _. ⊥ };

    ghost failures = { λ books. books.failures };

    ghost stores = { λ _. last_count };

    fn failure_count(&self) -> u64 {
        self.failures
    }

    fn view(&mut self, alloc: Global, keys: &Keys) -> Result<View, Fault> {
        if self.fails(BooksCall::View) {
            self.count(false);
            return Err(self.fault);
        }
        let found = self.books.view(alloc, keys);
        self.count(found.is_ok());
        found
    }

    fn write(&mut self, alloc: Global, change: Change) -> Result<(), Fault> {
        if self.fails(BooksCall::Write) {
            drop(change);
            self.count(false);
            return Err(self.fault);
        }
        let written = self.books.write(alloc, change);
        self.count(written.is_ok());
        written
    }

    fn is_held(&mut self, alloc: Global, name: &NormalName) -> Result<bool, Fault> {
        if self.fails(BooksCall::IsHeld) {
            self.count(false);
            return Err(self.fault);
        }
        let found = self.books.is_held(alloc, name);
        self.count(found.is_ok());
        found
    }

    fn bytes_of(&mut self, alloc: Global, file: &FileName) -> Result<Option<Sealed>, Fault> {
        if self.fails(BooksCall::BytesOf) {
            self.count(false);
            return Err(self.fault);
        }
        let found = self.books.bytes_of(alloc, file);
        self.count(found.is_ok());
        found
    }

    fn names(&mut self, alloc: Global) -> Result<Vec<NameRow>, Fault> {
        if self.fails(BooksCall::Names) {
            self.count(false);
            return Err(self.fault);
        }
        let found = self.books.names(alloc);
        self.count(found.is_ok());
        found
    }

    fn files_of(&mut self, alloc: Global, name: &NormalName) -> Result<Vec<FileRow>, Fault> {
        if self.fails(BooksCall::FilesOf) {
            self.count(false);
            return Err(self.fault);
        }
        let found = self.books.files_of(alloc, name);
        self.count(found.is_ok());
        found
    }

    fn walk_held<K: Taker<NameRow>>(
        &mut self,
        alloc: Global,
        taker: &mut K,
    ) -> Result<(), WalkEnd> {
        let ended = self.hand_names(alloc, taker);
        self.count_walk(&ended);
        ended
    }

    fn walk_files<K: Taker<FileRow>>(
        &mut self,
        alloc: Global,
        name: &NormalName,
        taker: &mut K,
    ) -> Result<(), WalkEnd> {
        let ended = self.hand_files(alloc, name, taker);
        self.count_walk(&ended);
        ended
    }

    ghost honest_is_clean = { λ _ honest. honest };

    ghost settled = { λ _ honest _ _. absurd honest };
}

/// Takes each row.
#[derive(Drop)]
pub(super) struct TakesAll;

impl Taker<NameRow> for TakesAll {
    ghost use Rattle.std.specs.Prelude.{⊤};

    ghost takes = { λ _ _ _. ⊤ };

    ghost stops = { λ _ _ _. ⊤ };

    fn take(&mut self, _row: &NameRow) -> bool {
        true
    }
}

impl Taker<FileRow> for TakesAll {
    ghost use Rattle.std.specs.Prelude.{⊤};

    ghost takes = { λ _ _ _. ⊤ };

    ghost stops = { λ _ _ _. ⊤ };

    fn take(&mut self, _row: &FileRow) -> bool {
        true
    }
}
