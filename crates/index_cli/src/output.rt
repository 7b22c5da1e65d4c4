//! Writes lines to any sink.
ghost use Rattle.std.specs.Prelude.{◌≡◌, [], ◌∷◌, ◌++◌, OnOk};
ghost use Rattle.index_cli.specs.Ends.{WritesText};
ghost use Rattle.index_cli.specs.Lines.{line_feed};
ghost use Rattle.index_cli.specs.Replies.{line_reply_text};

use crate::reply::LineReply;
use index_io::{Sink, write_bytes};
use std::alloc::AllocError;

/// Writes a reply and a line feed: in one write if both fit into `room`, whose old bytes are dropped, or there is
/// memory for more. The error is the number of bytes that were written.
pub fn write_line<K: Sink>(sink: &mut K, room: &mut Vec<u8>, reply: LineReply) -> Result<(), usize>
    ensures { WritesText K.Sink sink.old sink.new (line_reply_text reply ++ line_feed ∷ []) result }
{
    match gather(room, reply.as_bytes()) {
        Ok(()) => write_bytes(sink, room.as_slice()),
        Err(_) => write_apart(sink, reply.as_bytes()),
    }
}

/// Replaces the bytes of `room` by a text and a line feed.
fn gather(room: &mut Vec<u8>, text: &[u8]) -> Result<(), AllocError>
    ensures { OnOk result (room.new.items ≡ text.now ++ line_feed ∷ []) }
{
    room.clear();
    room.extend_from_slice(text)?;
    room.push(b'\n')?;
    Ok(())
}

/// Writes a text, and then a line feed.
fn write_apart<K: Sink>(sink: &mut K, text: &[u8]) -> Result<(), usize>
    ensures { WritesText K.Sink sink.old sink.new (text.now ++ line_feed ∷ []) result }
{
    write_bytes(sink, text)?;
    if write_bytes(sink, b"\n".as_slice()).is_err() {
        return Err(text.len());
    }
    Ok(())
}
