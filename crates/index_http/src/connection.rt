//! One connection: one message, its reply, and how it ends.
ghost use Rattle.std.specs.Prelude.{◌≡◌};
ghost use Rattle.index_message.specs.Reads.{from_source};
ghost use Rattle.index_http.specs.Asks.{AnswersOne, MessageIsAnswered};
ghost use Rattle.index_http.specs.Steps.{at_desk, to_sink};

use crate::change::act;
use crate::get::show;
use crate::reply::message_reply;
use crate::send::send_reply;
use index_caching::CachesAnswers;
use index_desk::Desk;
use index_io::{Sink, Source};
use index_message::{Message, ReadEnd, Site, read_message};
use index_rules::Bytes;
use std::alloc::{AllocError, Global};
use std::error::Error;
use std::fmt;

/// Why a connection ended before its reply was whole.
#[derive(Clone, Copy, Debug, PartialEq, Eq, Hash)]
pub enum IoEnd {
    /// A read failed. Nothing was applied or written.
    ReadFault,
    /// Memory ran out before anything was written. Nothing was applied, or the message only reads.
    OutOfMemory,
    /// A write failed or took no byte, after this many bytes of the reply. What the message changed stands.
    WriteFault(u64),
    /// The store failed, memory ran out or the page was too long, after this many bytes of the reply. No table was
    /// changed.
    Cut(u64),
}

impl fmt::Display for IoEnd {
    ghost use Rattle.std.specs.Prelude.{Some};
    ghost use Rattle.index_http.specs.Printed.{io_end_text};

    ghost output = { λ end. Some (io_end_text end) };

    fn fmt<W: fmt::Write>(&self, f: &mut fmt::Formatter<W>) -> fmt::Result {
        f.write_str(match self {
            IoEnd::ReadFault => "ReadFault",
            IoEnd::OutOfMemory => "OutOfMemory",
            IoEnd::WriteFault(_) => "WriteFault",
            IoEnd::Cut(_) => "Cut",
        })
    }
}

impl Error for IoEnd {}

impl From<AllocError> for IoEnd {
    ghost use Rattle.index_http.specs.declared.connection.IoEnd.TheVariants.{OutOfMemory};

    ghost from_gives = { λ _ end. end ≡ OutOfMemory };

    fn from(_error: AllocError) -> IoEnd {
        IoEnd::OutOfMemory
    }
}

impl From<ReadEnd> for IoEnd {
    ghost use Rattle.index_http.specs.Sends.{io_end_of_read};

    ghost from_gives = { λ read end. end ≡ io_end_of_read read };

    fn from(end: ReadEnd) -> IoEnd {
        match end {
            ReadEnd::ReadFault => IoEnd::ReadFault,
            ReadEnd::OutOfMemory => IoEnd::OutOfMemory,
        }
    }
}

/// Reads one message, applies it or looks up what it asks for, and writes the reply. `at` is in Unix seconds. A reply
/// to an applied request takes no memory.
///
/// # Errors
///
/// The end says why the reply is not whole. After `ReadFault` and `OutOfMemory` nothing was applied or written. After
/// `WriteFault` that many bytes of the reply were sent, and the message's change stands. After `Cut` that many bytes of
/// a page's reply were sent, and no table was changed.
pub fn answer_one<S: Source, K: Sink, B: CachesAnswers>(
    alloc: Global,
    site: &Site,
    source: &mut S,
    sink: &mut K,
    desk: &mut Desk<B>,
    at: u64,
) -> Result<(), IoEnd>
    // The reply, the tables, what a crash leaves, and the cause of each end.
    ensures { AnswersOne at (from_source S.Source source.old source.new)
        (at_desk B.Books desk.old desk.new) (to_sink K.Sink sink.old sink.new) result }
{
    let message = read_message(alloc, site, source)?;
    answer(alloc, sink, desk, at, message)
}

/// Answers a message.
fn answer<K: Sink, B: CachesAnswers>(
    alloc: Global,
    sink: &mut K,
    desk: &mut Desk<B>,
    at: u64,
    message: Message,
) -> Result<(), IoEnd>
    ensures { MessageIsAnswered at message
        (at_desk B.Books desk.old desk.new) (to_sink K.Sink sink.old sink.new) result }
{
    match message {
        Message::Faulty { fault, is_head } => send_reply(sink, is_head, message_reply(fault)),
        Message::Whole { request, body } => {
            if request.method().is_reading() {
                drop(body);
                show(alloc, sink, desk, &request)
            } else {
                act(alloc, sink, desk, at, &request, body)
            }
        }
    }
}
