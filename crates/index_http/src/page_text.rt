//! The text of a page: written in one pass over its rows, or gathered in one before it is sent.
ghost use Rattle.std.specs.Prelude.{◌≡◌, ◌≤◌, ◌+◌, [], length, max, min, true};
ghost use Rattle.index_caching.specs.Pages.{page_in};
ghost use Rattle.index_http.specs.PagePasses.{EndsText, Gathers, WritesPageIn, fault_in, fault_of};
ghost use Rattle.index_http.specs.Steps.{at_desk, to_sink};
ghost use Rattle.index_http.specs.declared.page_text.TheConstants.{GATHERED_AT_LEAST, MOST_GATHERED};

use index_caching::PageKey;
use index_desk::Desk;
use index_io::{Failed, Sink};
use index_pages::{Page, PageEnd, PageText, Served};
use index_rules::{Books, Fault, WalkEnd};
use std::alloc::Global;

/// The most bytes that are gathered, even if the cache has more.
const MOST_GATHERED: usize = 67_108_864;

/// The bytes that are gathered even if the cache has fewer.
const GATHERED_AT_LEAST: usize = 4_194_304;

/// Why the text of a page was not written whole.
#[derive(Clone, Copy)]
pub enum TextEnd {
    /// A fault ended the walk over the rows, after this many bytes.
    Walk(Fault, u64),
    Page(PageEnd),
}

/// Writes the text of a page, and returns the number of its bytes, or `None` if it does not exist: then nothing is
/// written. It changes no table.
pub fn write_page<K: Sink, B: Books>(
    alloc: Global,
    sink: &mut K,
    desk: &mut Desk<B>,
    page: PageKey<'_>,
    served: Served,
) -> Result<Option<u64>, TextEnd>
    ensures { WritesPageIn (λ T. page_in T served page.entry)
        (at_desk B.Books desk.old desk.new) (to_sink K.Sink sink.old sink.new) result }
{
    match page {
        PageKey::Root => {
            let mut text = PageText::root(alloc, served, sink);
            let walked = desk.walk_root(alloc, &mut text);
            end_text(walked.map(|()| true), text)
        }
        PageKey::Project(name) => {
            let mut text = PageText::project(alloc, name, served, sink);
            let walked = desk.walk_project(alloc, name, &mut text);
            end_text(walked, text)
        }
    }
}

/// Ends a text once its rows were walked over. A text that stopped the walk says why.
fn end_text<K: Sink, P: Page>(
    walked: Result<bool, WalkEnd>,
    text: PageText<'_, '_, K, P, Vec<u8>>,
) -> Result<Option<u64>, TextEnd>
    ensures text { EndsText K.Sink P.rest text.entry text.exit.0.now walked result }
    ensures fault { fault_in result ≡ fault_of walked }
{
    match walked {
        Ok(false) => {
            text.abandon();
            Ok(None)
        }
        Ok(true) | Err(WalkEnd::Stopped) => match text.finish() {
            Ok(size) => Ok(Some(size)),
            Err(end) => Err(TextEnd::Page(end)),
        },
        Err(WalkEnd::OutOfMemory) => Err(TextEnd::Walk(Fault::OutOfMemory, text.abandon())),
        Err(WalkEnd::Store) => Err(TextEnd::Walk(Fault::Store, text.abandon())),
    }
}

/// The text of a page, or `None` if it does not exist, is too long to be gathered, or memory ran out. It changes no
/// table.
pub fn gathered_text<B: Books>(
    alloc: Global,
    desk: &mut Desk<B>,
    page: PageKey<'_>,
    served: Served,
    cache_size: usize,
) -> Result<Option<Vec<u8>>, Fault>
    ensures { Gathers B.Books desk.old desk.new result (λ T. page_in T served page.entry) }
{
    let mut buffer = Buffer::new(alloc, cache_size);
    match write_page(alloc, &mut buffer, desk, page, served) {
        Ok(Some(_)) => Ok(Some(buffer.bytes)),
        Ok(None) | Err(TextEnd::Page(_)) => Ok(None),
        Err(TextEnd::Walk(fault, _)) => Err(fault),
    }
}

/// A buffer of at most `most` bytes. A write that would pass the bound fails.
#[derive(Drop)]
struct Buffer {
    bytes: Vec<u8>,
    most: usize,
    failures: u64,
    ghost within: { length bytes.items ≤ most },
    ghost bounded: { most ≤ MOST_GATHERED },
}

impl Buffer {
    /// An empty buffer, of as many bytes as the cache has, but at least 4 MiB, and at most 64 MiB. It takes no memory.
    fn new(alloc: Global, cache_size: usize) -> Buffer
        ensures empty { result.bytes.items ≡ [] }
        ensures most { result.most ≡ min (max cache_size GATHERED_AT_LEAST) MOST_GATHERED }
    {
        Buffer {
            bytes: Vec::new(alloc),
            most: cache_size.max(GATHERED_AT_LEAST).min(MOST_GATHERED),
            failures: 0,
        }
    }

    /// Whether this many more bytes fit.
    fn has_room(&self, more: usize) -> bool
        ensures room { result ≡ true → length self.now.bytes.items + more ≤ self.now.most }
    {
        self.bytes.len().saturating_add(more) <= self.most
    }
}

impl Sink for Buffer {
    ghost use Rattle.std.specs.Prelude.{Some};

    ghost contents = { λ buffer. Some buffer.bytes.items };

    ghost failures = { λ buffer. buffer.failures };

    fn take(&mut self, bytes: &[u8]) -> Result<usize, Failed> {
        if bytes.is_empty() || !self.has_room(bytes.len()) {
            self.failures = self.failures.saturating_add(1);
            return Err(Failed);
        }
        match self.bytes.extend_from_slice(bytes) {
            Ok(()) => Ok(bytes.len()),
            Err(_) => {
                self.failures = self.failures.saturating_add(1);
                Err(Failed)
            }
        }
    }
}
