//! Sources of bytes.
ghost use Rattle.std.specs.Prelude.{◌≡◌, ℕ, List, Option, is_ok, IfOk, OnErr};
ghost use Rattle.std.specs.Io.{ReadsAtMost};
ghost use Rattle.std.specs.Io.KnownBytes.{Keeps, ReadConsumes};
ghost use Rattle.index_io.specs.Bytes.{TakesByte};
ghost use Rattle.index_io.specs.Counts.{next_count};

use std::io::{ErrorKind, Read};

/// A read failed, or a write failed or took no byte.
#[derive(Clone, Copy, Debug, PartialEq, Eq)]
pub struct Failed;

/// A source of bytes, which counts the reads that failed.
pub trait Source {
    /// The bytes that are left, if they are known.
    ghost remaining: { Self → Option (List ℕ) };

    /// How many reads failed.
    ghost failures: { Self → ℕ };

    /// Fills a prefix of the room and returns its length: 0 is the end of the input, or no room.
    fn give(&mut self, room: &mut [u8]) -> Result<usize, Failed>
        ensures bound { ReadsAtMost result room.new }
        ensures bytes { ReadConsumes (remaining self.old) (remaining self.new) result room.new }
        ensures failures { failures self.new ≡ next_count (failures self.old) (is_ok result) };
}

/// The bytes of a reader. An interrupted read is tried again.
#[derive(Debug, Drop)]
pub struct Input<R> {
    pub reader: R,
    pub failures: u64,
}

impl<R> Input<R> {
    /// The input from a reader, before any read has failed.
    pub fn new(reader: R) -> Input<R>
        ensures { result ≡ record { reader = reader; failures = 0 } }
    {
        Input {
            reader,
            failures: 0,
        }
    }
}

impl<R: Read> Source for Input<R> {
    ghost remaining = { λ input. R.remaining input.reader };

    ghost failures = { λ input. input.failures };

    fn give(&mut self, room: &mut [u8]) -> Result<usize, Failed> {
        match read_again(&mut self.reader, room) {
            Ok(count) => Ok(count),
            Err(failed) => {
                self.failures = self.failures.saturating_add(1);
                Err(failed)
            }
        }
    }
}

/// Reads, and tries again after an interrupt.
fn read_again<R: Read>(reader: &mut R, room: &mut [u8]) -> Result<usize, Failed>
    ensures bound { ReadsAtMost result room.new }
    ensures bytes { ReadConsumes (R.remaining reader.old) (R.remaining reader.new) result room.new }
{
    // A proof needs a bound, and no run lives long enough to be interrupted as often.
    for _ in 0..u64::MAX {
        match reader.read(room) {
            Ok(count) => return Ok(count),
            Err(error) if error.kind() == ErrorKind::Interrupted => {}
            Err(_) => return Err(Failed),
        }
    }
    Err(Failed)
}

/// The next byte, or `None` at the end of the input.
///
/// # Errors
///
/// `Failed` if a read fails.
pub fn next_byte<S: Source>(source: &mut S) -> Result<Option<u8>, Failed>
    ensures byte { IfOk result (λ byte.
        TakesByte byte (S.remaining source.old) (S.remaining source.new)) }
    ensures kept { OnErr result (Keeps (S.remaining source.old) (S.remaining source.new)) }
    ensures failures { S.failures source.new ≡ next_count (S.failures source.old) (is_ok result) }
{
    let mut one = [0u8; 1];
    match source.give(&mut one)? {
        0 => Ok(None),
        _ => Ok(Some(one[0])),
    }
}
