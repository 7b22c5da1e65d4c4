//! Writes a page row by row.
ghost use Rattle.std.specs.Prelude.{◌≡◌, ◌+◌, ◌<◌, ◌≤◌, [], false, None, IfErr, IfOk, IfSome, IsTrue};
ghost use Rattle.index_pages.specs.Ends.{Closes, most_bytes};
ghost use Rattle.index_pages.specs.Left.{files_left, names_left};
ghost use Rattle.index_pages.specs.Pages.{project_page_of, root_page_of};
ghost use Rattle.index_pages.specs.States.{page_state, sink_of, state_of, Begins, CountsWritten, PageCuts, PageEnds, PageEndsStopped, PageSends, PageStaysEnded, PageStops, PageTakes};

use crate::end::PageEnd;
use crate::page::Page;
use crate::project::ProjectPage;
use crate::root::RootPage;
use crate::served::Served;
use index_io::{Sink, write_bytes};
use index_names::NormalName;
use index_rules::{FileRow, NameRow, Taker};
use std::alloc::Global;

/// The most bytes of a page.
const MOST_BYTES: u64 = 9_223_372_036_854_775_807;

/// A page that is written to a sink as its rows come. After a row that could not be written whole it takes and writes
/// nothing more.
#[derive(Drop)]
pub struct PageText<'a, 'p, K, P, R> {
    sink: &'a mut K,
    name: &'p str,
    page: P,
    /// Memory for the text of a row. Its type is a parameter: else no contract would see what a page leaves of its
    /// sink.
    room: R,
    written: u64,
    end: Option<PageEnd>,
}

impl<'a, K: Sink> PageText<'a, 'static, K, RootPage, Vec<u8>> {
    /// The root page, which is not begun yet. It takes rows of names, and lists those that are held. It takes no memory
    /// itself.
    pub fn root(
        alloc: Global,
        served: Served,
        sink: &'a mut K,
    ) -> PageText<'a, 'static, K, RootPage, Vec<u8>>
        ensures { Begins K.Sink names_left result sink.entry (root_page_of served) }
    {
        PageText::new(alloc, "", RootPage::new(served), sink)
    }
}

impl<'a, 'p, K: Sink> PageText<'a, 'p, K, ProjectPage, Vec<u8>> {
    /// A project's page, which is not begun yet. It takes rows of files. It takes no memory itself.
    pub fn project(
        alloc: Global,
        name: &'p NormalName,
        served: Served,
        sink: &'a mut K,
    ) -> PageText<'a, 'p, K, ProjectPage, Vec<u8>>
        ensures { Begins K.Sink files_left result sink.entry (project_page_of served name.now) }
    {
        PageText::new(alloc, name.text(), ProjectPage::new(alloc, served), sink)
    }
}

impl<'a, 'p, K: Sink, P: Page> PageText<'a, 'p, K, P, Vec<u8>> {
    /// A page that is not begun yet.
    fn new(
        alloc: Global,
        name: &'p str,
        page: P,
        sink: &'a mut K,
    ) -> PageText<'a, 'p, K, P, Vec<u8>>
        ensures { Begins K.Sink P.rest result sink.entry (P.rest page name.now) }
    {
        PageText {
            sink,
            name,
            page,
            room: Vec::new(alloc),
            written: 0,
            end: None,
        }
    }

    /// The number of bytes that were written. They begin every page whose rows begin with those that were given. It
    /// takes no memory.
    pub fn written(&self) -> u64
        ensures written { CountsWritten (page_state K.Sink P.rest self.now) result }
    {
        self.written
    }

    /// Drops the page before it is finished, and returns the number of bytes that were written. Nothing more is
    /// written.
    pub fn abandon(self) -> u64
        ensures kept { self.exit.0.now ≡ sink_of self.entry }
        ensures written { CountsWritten (page_state K.Sink P.rest self.entry) result }
    {
        let PageText {
            sink: _sink,
            name: _name,
            page: _page,
            room: _room,
            written,
            end: _end,
        } = self;
        written
    }

    /// Writes the text behind the rows, and returns the number of bytes of the page.
    ///
    /// # Errors
    ///
    /// The end says why the page was not finished and how many of its bytes were written: `OutOfMemory`; `Store` if it
    /// would have more than 9,223,372,036,854,775,807 bytes; `WriteFault` if a write failed or took no byte. If a row
    /// was not taken, the error is that of the row, and nothing more is written.
    pub fn finish(self) -> Result<u64, PageEnd>
        ensures page { PageEnds K.Sink P.rest self.entry self.exit.0.now result }
        ensures stopped { PageEndsStopped K.Sink P.rest self.entry self.exit.0.now result }
        ensures ended { PageStaysEnded self.entry self.exit.0.now result }
    {
        let PageText {
            sink,
            name,
            page,
            mut room,
            written,
            end,
        } = self;
        match end {
            Some(end) => Err(end),
            None => send_last(sink, name, &page, &mut room, written),
        }
    }

    /// Writes the text of a row. Returns `false` if it could not be written whole.
    fn take_row(&mut self, row: &P::Row) -> bool
        ensures taken { IsTrue result → PageTakes K.Sink P.rest self.old row.now self.new }
        ensures stopped { result ≡ false → PageStops K.Sink P.rest self.old row.now self.new }
    {
        if self.end.is_some() {
            return false;
        }
        match self.send_row(row) {
            Ok(written) => {
                self.written = written;
                true
            }
            Err(end) => {
                self.written = end.count();
                self.end = Some(end);
                false
            }
        }
    }

    /// Sends the text of a row.
    fn send_row(&mut self, row: &P::Row) -> Result<u64, PageEnd>
        ensures sink { self.new.sink.ghost_name ≡ self.old.sink.ghost_name }
        ensures kept { (self.new.written ≡ self.old.written) × (self.new.end ≡ self.old.end) }
        ensures sent { IfOk result (PageSends K.Sink P.rest self.old row.now self.new) }
        ensures stopped { IfErr result (PageCuts K.Sink P.rest self.old row.now self.new) }
    {
        self.room.clear();
        match self.page.append_row(self.name, row, &mut self.room) {
            Ok(()) => send(self.sink, self.written, &self.room),
            Err(_) => Err(PageEnd::OutOfMemory(self.written)),
        }
    }
}

impl<K: Sink> Taker<NameRow> for PageText<'_, '_, K, RootPage, Vec<u8>> {
    ghost use Rattle.index_pages.specs.Left.{names_left};
    ghost use Rattle.index_pages.specs.States.{PageStops, PageTakes};

    ghost takes = { λ before row after. PageTakes K.Sink names_left before row after };

    ghost stops = { λ before row after. PageStops K.Sink names_left before row after };

    fn take(&mut self, row: &NameRow) -> bool {
        self.take_row(row)
    }
}

impl<K: Sink> Taker<FileRow> for PageText<'_, '_, K, ProjectPage, Vec<u8>> {
    ghost use Rattle.index_pages.specs.Left.{files_left};
    ghost use Rattle.index_pages.specs.States.{PageStops, PageTakes};

    ghost takes = { λ before row after. PageTakes K.Sink files_left before row after };

    ghost stops = { λ before row after. PageStops K.Sink files_left before row after };

    fn take(&mut self, row: &FileRow) -> bool {
        self.take_row(row)
    }
}

/// The sum, or `None` if no page may have this many bytes.
fn total(length: u64, more: usize) -> Option<u64>
    ensures sum { IfSome result (λ sum. (sum ≡ length + more) × (sum ≤ most_bytes)) }
    ensures past { result ≡ None → most_bytes < length + more }
{
    let sum = length.checked_add(more as u64)?;
    if sum > MOST_BYTES { None } else { Some(sum) }
}

/// Writes a text that follows the first `written` bytes of a page.
fn send<K: Sink>(sink: &mut K, written: u64, text: &[u8]) -> Result<u64, PageEnd>
    ensures { Closes text.now (state_of K.Sink sink.old) (state_of K.Sink sink.new) written result }
{
    let Some(sum) = total(written, text.len()) else {
        return Err(PageEnd::Store(written));
    };
    match write_bytes(sink, text) {
        Ok(()) => Ok(sum),
        Err(count) => Err(PageEnd::WriteFault(written + count as u64)),
    }
}

/// Writes the text behind the rows.
fn send_last<K: Sink, P: Page>(
    sink: &mut K,
    name: &str,
    page: &P,
    room: &mut Vec<u8>,
    written: u64,
) -> Result<u64, PageEnd>
    ensures { Closes (P.rest page.now name.now []) (state_of K.Sink sink.old)
        (state_of K.Sink sink.new) written result }
{
    room.clear();
    match page.append_last(name, room) {
        Ok(()) => send(sink, written, room),
        Err(_) => Err(PageEnd::OutOfMemory(written)),
    }
}
