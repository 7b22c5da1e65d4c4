//! Replies with a page. Their head has the page's length, so that is known before the text is sent.
ghost use Rattle.std.specs.Prelude.{◌≡◌, ◌⊎◌, false, not};
ghost use Rattle.index_desk.specs.Looks.{LeavesTables};
ghost use Rattle.index_caching.specs.Pages.{page_in};
ghost use Rattle.index_http.specs.PagePasses.{IsMeasured};
ghost use Rattle.index_http.specs.PageShows.{PageShown, after_head};
ghost use Rattle.index_http.specs.Replies.{page_reply, reply_text};
ghost use Rattle.index_http.specs.Sends.{ReplyFailsOnly, SendsBytes, SendsLessThanText, is_cut, is_silent, is_write_fault};
ghost use Rattle.index_http.specs.Shows.{LookShows, look_at_page};
ghost use Rattle.index_http.specs.Steps.{StaysHonest, at_desk, to_sink};

use crate::connection::IoEnd;
use crate::page_passes::{length_of, send_text};
use crate::page_text::gathered_text;
use crate::reply::{Fields, page_reply, refusal_reply};
use crate::send::{send_fault, send_head, send_reply};
use http::StatusCode;
use index_caching::{CachesAnswers, PageKey, cache_page, cache_size, cached_page};
use index_desk::Desk;
use index_io::Sink;
use index_pages::Served;
use index_rules::{Books, Refusal};
use std::alloc::Global;

/// Replies with a page in a type, if it exists.
pub fn show_page<K: Sink, B: CachesAnswers>(
    alloc: Global,
    sink: &mut K,
    desk: &mut Desk<B>,
    is_head: bool,
    page: PageKey<'_>,
    served: Served,
) -> Result<(), IoEnd>
    ensures { LookShows (look_at_page is_head) (λ T. PageShown served (page_in T served page.entry))
        (at_desk B.Books desk.old desk.new) (to_sink K.Sink sink.old sink.new) result }
{
    if let Some(text) = cached_page(desk, page, served) {
        return send_reply(sink, is_head, page_reply(served, text));
    }
    let cache_size = cache_size(desk);
    match gathered_text(alloc, desk, page, served, cache_size) {
        Ok(Some(text)) => {
            let sent = send_reply(sink, is_head, page_reply(served, text.as_slice()));
            cache_page(desk, page, served, text);
            sent
        }
        Ok(None) => show_in_passes(alloc, sink, desk, is_head, page, served),
        Err(fault) => send_fault(sink, is_head, fault),
    }
}

/// Replies with a page in a type, if it exists: a first pass over its rows counts its bytes, and a second sends them.
fn show_in_passes<K: Sink, B: Books>(
    alloc: Global,
    sink: &mut K,
    desk: &mut Desk<B>,
    is_head: bool,
    page: PageKey<'_>,
    served: Served,
) -> Result<(), IoEnd>
    ensures { LookShows (look_at_page is_head) (λ T. PageShown served (page_in T served page.entry))
        (at_desk B.Books desk.old desk.new) (to_sink K.Sink sink.old sink.new) result }
{
    match length_of(alloc, desk, page, served) {
        Ok(Some(size)) => send_page(alloc, sink, desk, is_head, page, served, size),
        Ok(None) => send_reply(sink, is_head, refusal_reply(Refusal::NoProject)),
        Err(fault) => send_fault(sink, is_head, fault),
    }
}

/// Sends the head of a page of this length, and the text unless it replies to `HEAD`. It changes no table.
fn send_page<K: Sink, B: Books>(
    alloc: Global,
    sink: &mut K,
    desk: &mut Desk<B>,
    is_head: bool,
    page: PageKey<'_>,
    served: Served,
    size: u64,
) -> Result<(), IoEnd>
    ensures sent { B.IsHonest desk.old → B.IsClean desk.new →
        (there : IsMeasured (page_in (B.tables desk.old) served page.entry) size) →
        SendsBytes K.Sink sink.old sink.new
        (reply_text is_head (page_reply served there.bytes)) result }
    ensures lasts { B.IsHonest desk.old → B.IsClean desk.new →
        (there : IsMeasured (page_in (B.tables desk.old) served page.entry) size) →
        StaysHonest (at_desk B.Books desk.old desk.new) ⊎ SendsLessThanText
        (reply_text is_head (page_reply served there.bytes))
        (K.contents sink.old) (K.contents sink.new) }
    ensures leaves { LeavesTables B.Books desk.old desk.new }
    ensures sends { ReplyFailsOnly K.Sink sink.old sink.new (not is_head) result }
    ensures told { is_silent result ≡ false }
{
    let head = match send_head(sink, StatusCode::OK, Fields::Page(served), size) {
        Ok(head) => head,
        Err(count) => return Err(IoEnd::WriteFault(count)),
    };
    if is_head {
        return Ok(());
    }
    after_head(head, send_text(alloc, sink, desk, page, served))
}

/// The end of a reply, from the end of its body. `head` is the number of bytes that were sent before the body.
fn after_head(head: u64, end: Result<(), IoEnd>) -> Result<(), IoEnd>
    ensures end { result ≡ after_head head end }
    ensures kind { is_write_fault result ≡ is_write_fault end }
    ensures cut { is_cut result ≡ is_cut end }
    ensures silent { is_silent result ≡ is_silent end }
{
    match end {
        Ok(()) => Ok(()),
        Err(IoEnd::WriteFault(count)) => Err(IoEnd::WriteFault(head.saturating_add(count))),
        Err(IoEnd::Cut(count)) => Err(IoEnd::Cut(head.saturating_add(count))),
        Err(end) => Err(end),
    }
}
