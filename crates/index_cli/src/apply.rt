//! Answers to the lines of an input.
ghost use Rattle.std.specs.Prelude.{ℕ};
ghost use Rattle.index_desk.specs.Invariants.{KeepsInvariants};
ghost use Rattle.index_http.specs.Steps.{at_desk, to_sink};
ghost use Rattle.index_cli.specs.Causes.{HaveCounted, HaveFailed, LinesReportFaults};
ghost use Rattle.index_cli.specs.DeskAnswers.{by_desk};
ghost use Rattle.index_cli.specs.Ends.{RunEnds, RunFailsOnly};
ghost use Rattle.index_cli.specs.Lines.{Charges};
ghost use Rattle.index_message.specs.Reads.{from_source};

use crate::end::LineEnd;
use crate::input::next_line;
use crate::output::write_line;
use crate::reply::reply_to;
use index_desk::Desk;
use index_io::{Sink, Source};
use index_rules::Books;
use std::alloc::Global;

/// The most bytes that are read.
pub const MOST_BYTES: u64 = 1_099_511_627_776;

/// Answers each line of an input by a line, and returns the number of lines. The last line may lack its line feed. A
/// failed store is the answer to its line, and the next line is read. Bytes are read one by one, so pass a buffered
/// reader.
///
/// # Errors
///
/// `ReadFault` if a read fails or 1,099,511,627,776 bytes were read, `WriteFault` if a write fails or takes no byte,
/// and `OutOfMemory` if memory ran out for a line or the text of a standing.
pub fn apply_lines<S: Source, K: Sink, B: Books>(
    alloc: Global,
    source: &mut S,
    sink: &mut K,
    desk: &mut Desk<B>,
) -> Result<u64, LineEnd>
    // The answers and the tables, by the tables before and by each legal history of them; up to a fault, if one has shut
    // the store; and what a crash leaves.
    ensures answers { RunEnds (from_source S.Source source.old source.new)
        (to_sink K.Sink sink.old sink.new) result
        (by_desk (at_desk B.Books desk.old desk.new)) (B.tables desk.new) }

    // Each fault of the store that a line reports has a call of the store that failed.
    ensures failures { (faults : ℕ) × HaveFailed faults (B.failures desk.old) (B.failures desk.new)
        × RunEnds (from_source S.Source source.old source.new) (to_sink K.Sink sink.old sink.new)
        result (LinesReportFaults faults) (B.tables desk.new) }

    // The lines report `Store` as often as the store answered it, up to the last value of that count.
    ensures stores { (faults : ℕ) × HaveCounted faults (B.stores desk.old) (B.stores desk.new)
        × RunEnds (from_source S.Source source.old source.new) (to_sink K.Sink sink.old sink.new)
        result (LinesReportFaults faults) (B.tables desk.new) }

    // `ReadFault` and `WriteFault` come only for their causes, and nothing else failed.
    ensures fails { RunFailsOnly MOST_BYTES (from_source S.Source source.old source.new)
        (to_sink K.Sink sink.old sink.new) result }

    // No more than `MOST_BYTES` is read.
    ensures limit { (left : ℕ)
        × Charges MOST_BYTES left (S.remaining source.old) (S.remaining source.new) }

    // However it ends, if no fault has shut the store: at most one user still has each token's digest, and charges that
    // add up still add up.
    ensures keeps { KeepsInvariants B.Books desk.old desk.new }
{
    let mut line = Vec::new(alloc);
    let mut left = MOST_BYTES;
    for count in 0..MOST_BYTES {
        let Some(size) = next_line(source, &mut line, &mut left)? else {
            return Ok(count);
        };
        let reply = reply_to(alloc, desk, line.as_slice(), size)?;
        let Ok(()) = write_line(sink, &mut line, reply) else {
            return Err(LineEnd::WriteFault);
        };
    }
    Err(LineEnd::ReadFault)
}
