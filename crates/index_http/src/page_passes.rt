//! The two passes over the rows of a page: the first counts its bytes, the second sends them. Neither writes a head.
ghost use Rattle.std.specs.Prelude.{◌≡◌};
ghost use Rattle.index_caching.specs.Pages.{page_in};
ghost use Rattle.index_http.specs.PagePasses.{MeasuresText, SendsPage, measured_by, sent_by};
ghost use Rattle.index_http.specs.Steps.{at_desk, to_sink};

use crate::connection::IoEnd;
use crate::page_text::{TextEnd, write_page};
use index_caching::PageKey;
use index_desk::Desk;
use index_io::{Output, Sink};
use index_pages::{PageEnd, Served};
use index_rules::{Books, Fault};
use std::alloc::Global;
use std::io;

/// The length of a page, or `None` if it does not exist. `Store` if the store fails or the page has more than
/// 9,223,372,036,854,775,807 bytes. It changes no table.
pub fn length_of<B: Books>(
    alloc: Global,
    desk: &mut Desk<B>,
    page: PageKey<'_>,
    served: Served,
) -> Result<Option<u64>, Fault>
    ensures { MeasuresText B.Books desk.old desk.new result (λ T. page_in T served page.entry) }
{
    let mut nowhere = Output::new(io::sink());
    measured_by(write_page(alloc, &mut nowhere, desk, page, served))
}

/// Sends the text of a page. It fails with `WriteFault`, or with `Cut`, also if the page does not exist. It changes no
/// table.
pub fn send_text<K: Sink, B: Books>(
    alloc: Global,
    sink: &mut K,
    desk: &mut Desk<B>,
    page: PageKey<'_>,
    served: Served,
) -> Result<(), IoEnd>
    ensures { SendsPage (λ T. page_in T served page.entry)
        (at_desk B.Books desk.old desk.new) (to_sink K.Sink sink.old sink.new) result }
{
    sent_by(write_page(alloc, sink, desk, page, served))
}

/// The length of a page, from the end of its text. No write to nowhere fails.
fn measured_by(written: Result<Option<u64>, TextEnd>) -> Result<Option<u64>, Fault>
    ensures { result ≡ measured_by written }
{
    match written {
        Ok(size) => Ok(size),
        Err(TextEnd::Walk(fault, _)) => Err(fault),
        Err(TextEnd::Page(PageEnd::Store(_))) => Err(Fault::Store),
        Err(TextEnd::Page(_)) => Err(Fault::OutOfMemory),
    }
}

/// The end of a connection, from the end of its page's text.
fn sent_by(written: Result<Option<u64>, TextEnd>) -> Result<(), IoEnd>
    ensures { result ≡ sent_by written }
{
    match written {
        Ok(Some(_)) => Ok(()),
        Ok(None) => Err(IoEnd::Cut(0)),
        Err(TextEnd::Page(PageEnd::WriteFault(count))) => Err(IoEnd::WriteFault(count)),
        Err(TextEnd::Page(end)) => Err(IoEnd::Cut(end.count())),
        Err(TextEnd::Walk(_, count)) => Err(IoEnd::Cut(count)),
    }
}
