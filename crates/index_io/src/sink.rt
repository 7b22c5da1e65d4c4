//! Sinks of bytes.
ghost use Rattle.std.specs.Prelude.{◌≡◌, ◌<◌, ◌^◌, ℕ, List, Option, length, is_ok, OnErr, OnOk};
ghost use Rattle.std.specs.Io.KnownBytes.{Keeps};
ghost use Rattle.index_io.specs.Bytes.{WritesAll, WritesFront, WritesUpTo, joined};
ghost use Rattle.index_io.specs.Counts.{next_count, HasFailed};

use crate::source::Failed;
use std::io::{ErrorKind, Write};

/// A sink of bytes, which counts the writes that failed or took no byte.
pub trait Sink {
    /// The bytes that the sink has taken, if they are known.
    ghost contents: { Self → Option (List ℕ) };

    /// How many writes failed or took no byte.
    ghost failures: { Self → ℕ };

    /// Takes a prefix of the bytes and returns its length, at least 1.
    fn take(&mut self, bytes: &[u8]) -> Result<usize, Failed>
        ensures front { WritesFront contents self.old self.new bytes.now result }
        ensures kept { OnErr result (Keeps (contents self.old) (contents self.new)) }
        ensures failures { failures self.new ≡ next_count (failures self.old) (is_ok result) };
}

/// The bytes that a writer takes. An interrupted write is tried again.
#[derive(Debug, Drop)]
pub struct Output<W> {
    pub writer: W,
    pub failures: u64,
}

impl<W> Output<W> {
    /// The output to a writer, before any write has failed.
    pub fn new(writer: W) -> Output<W>
        ensures { result ≡ record { writer = writer; failures = 0 } }
    {
        Output {
            writer,
            failures: 0,
        }
    }
}

impl<W: Write> Sink for Output<W> {
    ghost contents = { λ output. W.contents output.writer };

    ghost failures = { λ output. output.failures };

    fn take(&mut self, bytes: &[u8]) -> Result<usize, Failed> {
        match write_again(&mut self.writer, bytes) {
            Ok(count) => Ok(count),
            Err(failed) => {
                self.failures = self.failures.saturating_add(1);
                Err(failed)
            }
        }
    }
}

/// Writes a prefix of the bytes, and tries again after an interrupt.
fn write_again<W: Write>(writer: &mut W, bytes: &[u8]) -> Result<usize, Failed>
    ensures front { WritesFront W.contents writer.old writer.new bytes.now result }
    ensures kept { OnErr result (Keeps (W.contents writer.old) (W.contents writer.new)) }
{
    // A proof needs a bound, and no run lives long enough to be interrupted as often.
    for _ in 0..u64::MAX {
        match writer.write(bytes) {
            Ok(0) => return Err(Failed),
            Ok(count) => return Ok(count),
            Err(error) if error.kind() == ErrorKind::Interrupted => {}
            Err(_) => return Err(Failed),
        }
    }
    Err(Failed)
}

/// Writes bytes.
///
/// # Errors
///
/// How many of them went out, before a write failed or took no byte.
pub fn write_bytes<K: Sink>(sink: &mut K, bytes: &[u8]) -> Result<(), usize>
    ensures whole { WritesAll K.contents sink.old sink.new bytes.now result }
    ensures front { WritesUpTo K.contents sink.old sink.new bytes.now result }
    ensures kept { OnOk result (K.failures sink.new ≡ K.failures sink.old) }
    ensures failed { OnErr result (HasFailed (K.failures sink.old) (K.failures sink.new)) }
{
    let mut written = 0;
    while written < bytes.len() {
        let Ok(count) = sink.take(&bytes[written..]) else {
            return Err(written);
        };
        written += count;
    }
    Ok(())
}

/// Writes pieces one after another.
///
/// # Errors
///
/// How many of their bytes went out, before a write failed or took no byte.
pub fn write_pieces<K: Sink>(sink: &mut K, pieces: &[&[u8]]) -> Result<(), u64>
    requires { length (joined pieces.now) < 2 ^ 64 }
    ensures whole { WritesAll K.contents sink.old sink.new (joined pieces.now) result }
    ensures front { WritesUpTo K.contents sink.old sink.new (joined pieces.now) result }
    ensures kept { OnOk result (K.failures sink.new ≡ K.failures sink.old) }
    ensures failed { OnErr result (HasFailed (K.failures sink.old) (K.failures sink.new)) }
{
    let mut written = 0u64;
    for piece in pieces {
        if let Err(count) = write_bytes(sink, piece) {
            return Err(written + count as u64);
        }
        written += piece.len() as u64;
    }
    Ok(())
}
