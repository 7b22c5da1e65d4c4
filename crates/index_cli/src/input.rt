//! Lines of bounded size from any source.
ghost use Rattle.std.specs.Prelude.{◌≡◌, ◌≢◌, ◌+◌, ◌<◌, ◌≤◌, ◌⊎◌, [], ◌∷◌, ◌++◌};
ghost use Rattle.std.specs.Prelude.{Err, IfErr, IfOk, IfSome, OnErr, OnOk};
ghost use Rattle.index_io.specs.Counts.{HasFailed};
ghost use Rattle.index_cli.specs.Lines.{Charges, PartIsTaken, TakesLine};

use crate::end::LineEnd;
use index_io::{Source, next_byte};

/// The longest line that is read.
pub const LONGEST_LINE: u64 = 65_536;

/// Reads the next line of a source with its line feed, and returns its size without it, or `None` at the end of the
/// input. `line` gets the first 65,536 bytes. The bytes that were read are subtracted from `left`, the most that may be
/// read.
pub fn next_line<S: Source>(
    source: &mut S,
    line: &mut Vec<u8>,
    left: &mut u64,
) -> Result<Option<u64>, LineEnd>
    ensures line { IfOk result (λ size.
        TakesLine size line.new.items (S.remaining source.old) (S.remaining source.new)) }
    ensures part { OnErr result (PartIsTaken (S.remaining source.old) (S.remaining source.new)) }

    // The bytes read are subtracted, and a line has at least one byte.
    ensures charged { Charges left.old left.new (S.remaining source.old) (S.remaining source.new) }
    ensures left { IfOk result (λ size. IfSome size (λ size.
        (size + left.new ≤ left.old) × (left.new < left.old))) }

    // `ReadFault` is returned if a read failed, or if no more may be read.
    ensures read_fault { result ≡ Err LineEnd.ReadFault
        → HasFailed (S.failures source.old) (S.failures source.new) ⊎ (left.new ≡ 0) }
    ensures kept { result ≢ Err LineEnd.ReadFault → S.failures source.new ≡ S.failures source.old }
    ensures no_write { result ≢ Err LineEnd.WriteFault }
{
    line.clear();
    let most = *left;
    for size in 0..most {
        let Ok(next) = next_byte(source) else {
            return Err(LineEnd::ReadFault);
        };
        match next {
            None if size == 0 => return Ok(None),
            None => return Ok(Some(size)),
            Some(byte) => {
                *left -= 1;
                if byte == b'\n' {
                    return Ok(Some(size));
                }
                keep_front(line, byte, size)?;
            }
        }
    }
    Err(LineEnd::ReadFault)
}

/// Adds a byte to the kept front of a line, of which `size` bytes came before it.
fn keep_front(line: &mut Vec<u8>, byte: u8, size: u64) -> Result<(), LineEnd>
    ensures near { OnOk result (size < LONGEST_LINE
        → line.new.items ≡ line.old.items ++ byte ∷ []) }
    ensures far { OnOk result (LONGEST_LINE ≤ size → line.new.items ≡ line.old.items) }
    ensures fault { IfErr result (λ end. end ≡ LineEnd.OutOfMemory) }
{
    if size < LONGEST_LINE && line.push(byte).is_err() {
        return Err(LineEnd::OutOfMemory);
    }
    Ok(())
}
