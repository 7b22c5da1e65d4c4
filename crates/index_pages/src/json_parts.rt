//! The parts of JSON pages: a file of a project, member by member, whose keys are in byte order and have each its comma
//! before it, and texts in quotes with the shortest escapes (RFC 8259, section 7).
ghost use Rattle.std.specs.Prelude.{◌≡◌, ◌<◌};
ghost use Rattle.std.specs.Char.{digit_char};
ghost use Rattle.std.specs.List.{list_all};
ghost use Rattle.json.specs.Print.{escape, escape_byte};
ghost use Rattle.json.specs.Run.{is_plain as is_plain_byte};
ghost use Rattle.serde_json.specs.Written.{comma_if, compact_text};
ghost use Rattle.index_pages.specs.Json.{reason_data};
ghost use Rattle.index_pages.specs.Parts.{file_front, file_text, hashes_text, json_text, requires_text, size_text, url_text, yanked_text};
ghost use Rattle.index_pages.specs.Pieces.{Adds};

use crate::pieces::{Pieces, append};
use index_digest::Digest256;
use index_rules::FileRow;
use index_text::Text;
use itoa::Buffer;
use std::alloc::AllocError;

/// Appends a comma, if something stands before it.
pub fn append_comma<O: Pieces>(out: &mut O, is_later: bool) -> Result<(), AllocError>
    ensures { Adds O.holds out.old out.new result (comma_if is_later) }
{
    if !is_later {
        return Ok(());
    }
    out.put(b",")
}

/// Appends a file of a project.
pub fn append_json_file<O: Pieces>(
    out: &mut O,
    project: &str,
    row: &FileRow,
) -> Result<(), AllocError>
    ensures { Adds O.holds out.old out.new result (file_text project.now row.now) }
{
    append_front(out, row)?;
    append_size(out, row.size)?;
    append_url(out, project, row.file.text())?;
    append_yanked(out, &row.yanked)?;
    out.put(b"}")?;
    Ok(())
}

/// Appends a file up to its size.
fn append_front<O: Pieces>(out: &mut O, row: &FileRow) -> Result<(), AllocError>
    ensures { Adds O.holds out.old out.new result (file_front row.now) }
{
    out.put(b"{\"filename\":")?;
    append_json_text(out, row.file.text())?;
    append_hashes(out, &row.digest)?;
    append_requires(out, row.requires_python.as_str())?;
    Ok(())
}

/// Appends the member `hashes`, with the digest in hex.
fn append_hashes<O: Pieces>(out: &mut O, digest: &Digest256) -> Result<(), AllocError>
    ensures { Adds O.holds out.old out.new result (hashes_text digest.now) }
{
    let mut digits = [0u8; 64];
    digest.hex_into(&mut digits);
    append(out, &[b",\"hashes\":{\"sha256\":\"", &digits, b"\"}"])?;
    Ok(())
}

/// Appends the member `requires-python`, or nothing if its text is empty.
fn append_requires<O: Pieces>(out: &mut O, requires_python: &str) -> Result<(), AllocError>
    ensures { Adds O.holds out.old out.new result (requires_text requires_python.now) }
{
    if requires_python.is_empty() {
        return Ok(());
    }
    out.put(b",\"requires-python\":")?;
    append_json_text(out, requires_python)?;
    Ok(())
}

/// Appends the member `size`.
fn append_size<O: Pieces>(out: &mut O, size: u64) -> Result<(), AllocError>
    ensures { Adds O.holds out.old out.new result (size_text size) }
{
    let mut digits = Buffer::new();
    out.put(b",\"size\":")?;
    out.put(digits.format(size).as_bytes())?;
    Ok(())
}

/// Appends the member `url`, a path from the top of the site.
fn append_url<O: Pieces>(out: &mut O, project: &str, file: &str) -> Result<(), AllocError>
    ensures { Adds O.holds out.old out.new result (url_text project.now file.now) }
{
    out.put(b",\"url\":\"/files/")?;
    append_json_escaped(out, project.as_bytes())?;
    out.put(b"/")?;
    append_json_escaped(out, file.as_bytes())?;
    out.put(b"\"")?;
    Ok(())
}

/// Appends the member `yanked` with the reason, or nothing if the release is not yanked.
fn append_yanked<O: Pieces>(out: &mut O, yanked: &Option<Text>) -> Result<(), AllocError>
    ensures { Adds O.holds out.old out.new result (yanked_text yanked.now) }
{
    let Some(reason) = yanked else {
        return Ok(());
    };
    out.put(b",\"yanked\":")?;
    append_reason(out, reason.as_str())?;
    Ok(())
}

/// Appends the reason as a text, or true if it is empty.
fn append_reason<O: Pieces>(out: &mut O, reason: &str) -> Result<(), AllocError>
    ensures { Adds O.holds out.old out.new result (compact_text (reason_data reason.now)) }
{
    if reason.is_empty() {
        out.put(b"true")
    } else {
        append_json_text(out, reason)
    }
}

/// Appends a text in quotes.
pub fn append_json_text<O: Pieces>(out: &mut O, text: &str) -> Result<(), AllocError>
    ensures { Adds O.holds out.old out.new result (json_text text.now) }
{
    out.put(b"\"")?;
    append_json_escaped(out, text.as_bytes())?;
    out.put(b"\"")?;
    Ok(())
}

/// Appends the text between the quotes. Most texts need no escape, and are appended as they are.
pub fn append_json_escaped<O: Pieces>(out: &mut O, text: &[u8]) -> Result<(), AllocError>
    ensures { Adds O.holds out.old out.new result (escape text.now) }
{
    if is_plain(text) {
        return out.put(text);
    }
    for byte in text {
        append_json_byte(out, *byte)?;
    }
    Ok(())
}

/// Whether a text needs no escape. It reads every byte, so that several can be tested at once.
fn is_plain(text: &[u8]) -> bool
    ensures { result ≡ list_all is_plain_byte text.now }
{
    let mut is_plain = true;
    for byte in text {
        is_plain &= *byte != b'"' && *byte != b'\\' && *byte >= b' ';
    }
    is_plain
}

/// Appends a byte, or its escape in a JSON string (RFC 8259, section 7).
#[tactic(auto, unfolding(json::specs::Print::escape_byte))]
fn append_json_byte<O: Pieces>(out: &mut O, byte: u8) -> Result<(), AllocError>
    ensures { Adds O.holds out.old out.new result (escape_byte byte) }
{
    match byte {
        b'"' | b'\\' => out.put(&[b'\\', byte]),
        8 => out.put(b"\\b"),
        12 => out.put(b"\\f"),
        b'\n' => out.put(b"\\n"),
        b'\r' => out.put(b"\\r"),
        b'\t' => out.put(b"\\t"),
        _ if byte < b' ' => {
            out.put(&[
                b'\\',
                b'u',
                b'0',
                b'0',
                hex_digit(byte / 16),
                hex_digit(byte % 16),
            ])
        }
        _ => out.put(&[byte]),
    }
}

/// The hex digit, in lower case, of a value below 16.
fn hex_digit(value: u8) -> u8
    requires { value < 16 }
    ensures { result ≡ digit_char value }
{
    if value < 10 {
        b'0' + value
    } else {
        b'a' - 10 + value
    }
}
