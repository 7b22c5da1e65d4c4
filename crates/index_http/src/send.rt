//! Sends replies in pieces. It takes no memory.
ghost use Rattle.std.specs.Prelude.{◌≡◌, ◌<◌, ◌≤◌, ◌^◌, ◌++◌, false, length};
ghost use Rattle.http.specs.StatusCode.{code_digits};
ghost use Rattle.index_io.specs.Bytes.{joined};
ghost use Rattle.index_http.specs.Replies.{IsFixed, IsShortText, fields_text, head_text, phrase_of, reply_head, reply_of, reply_text};
ghost use Rattle.index_http.specs.Sends.{ReplyFailsOnly, SendsBytes, SendsHead};
ghost use Rattle.index_http.specs.Shows.{LookFails};

use crate::connection::IoEnd;
use crate::reply::{Fields, Reply, store_reply};
use http::StatusCode;
use index_io::{Sink, write_pieces};
use index_message::Allowed;
use index_names::NormalName;
use index_pages::Served;
use index_rules::Fault;
use itoa::Buffer;

/// Writes the head of a reply whose body has this many bytes, and returns the length of the head. If a write fails or
/// takes no byte, the error is the number of bytes that were sent.
pub fn send_head<K: Sink>(
    sink: &mut K,
    status: StatusCode,
    fields: Fields<'_>,
    size: u64,
) -> Result<u64, u64>
    ensures { let head = reply_head status (fields_text fields.entry) size in
        SendsHead K.Sink sink.old sink.new head head result }
{
    send_parts(sink, status, fields, size, b"")
}

/// Writes a reply, without its body if it replies to `HEAD`. It fails with `WriteFault` only.
pub fn send_reply<K: Sink>(sink: &mut K, is_head: bool, reply: Reply<'_>) -> Result<(), IoEnd>
    ensures sent { SendsBytes K.Sink sink.old sink.new
        (reply_text is_head (reply_of reply.entry)) result }
    ensures sends { ReplyFailsOnly K.Sink sink.old sink.new false result }
{
    let size = reply.body.len() as u64;
    let behind = if is_head { b"".as_slice() } else { reply.body };
    match send_parts(sink, reply.status, reply.fields, size, behind) {
        Ok(_) => Ok(()),
        Err(count) => Err(IoEnd::WriteFault(count)),
    }
}

/// Ends a request that only reads and failed: it replies to a failed store, and returns `OutOfMemory` without a reply.
pub fn send_fault<K: Sink>(sink: &mut K, is_head: bool, fault: Fault) -> Result<(), IoEnd>
    ensures told { LookFails is_head fault (K.contents sink.old) (K.contents sink.new) result }
    ensures sends { ReplyFailsOnly K.Sink sink.old sink.new false result }
{
    match fault {
        Fault::OutOfMemory => Err(IoEnd::OutOfMemory),
        Fault::Store => send_reply(sink, is_head, store_reply()),
    }
}

/// Writes a head with this content length, and the body. It returns the length of the head.
fn send_parts<K: Sink>(
    sink: &mut K,
    status: StatusCode,
    fields: Fields<'_>,
    size: u64,
    behind: &[u8],
) -> Result<u64, u64>
    ensures { let head = reply_head status (fields_text fields.entry) size in
        SendsHead K.Sink sink.old sink.new head (head ++ behind.now) result }
{
    let mut buffer = Buffer::new();
    let digits = buffer.format(size).as_bytes();
    let (first, second, third) = field_pieces(fields);
    let pieces = reply_pieces(
        code(status),
        phrase(status),
        first,
        second,
        third,
        digits,
        behind,
    );
    match write_pieces(sink, &pieces) {
        Ok(()) => Ok(length_of(&pieces) - behind.len() as u64),
        Err(count) => Err(count),
    }
}

/// The three digits of a status.
fn code(status: StatusCode) -> &'static [u8]
    ensures text { result.now ≡ code_digits status }
{
    status.as_str().as_bytes()
}

/// The pieces of a reply, in one lifetime.
#[tactic(auto, unfolding(crate::specs::Replies::head_text))]
fn reply_pieces<'x>(
    code: &'x [u8],
    phrase: &'x [u8],
    first: &'x [u8],
    second: &'x [u8],
    third: &'x [u8],
    digits: &'x [u8],
    body: &'x [u8],
) -> [&'x [u8]; 12]
    ensures text { let fields = first.now ++ (second.now ++ third.now) in
        joined result ≡ head_text code.now phrase.now fields digits.now ++ body.now }
{
    [
        b"HTTP/1.1 ",
        code,
        b" ",
        phrase,
        b"\r\n",
        first,
        second,
        third,
        b"Content-Length: ",
        digits,
        b"\r\nConnection: close\r\n\r\n",
        body,
    ]
}

/// The length of the pieces together.
fn length_of(pieces: &[&[u8]]) -> u64
    requires { length (joined pieces.now) < 2 ^ 64 }
    ensures { result ≡ length (joined pieces.now) }
{
    let mut length = 0u64;
    for piece in pieces {
        length += piece.len() as u64;
    }
    length
}

/// The phrase of a status.
#[tactic(auto, unfolding(crate::specs::Replies::phrase_of))]
fn phrase(status: StatusCode) -> &'static [u8]
    ensures text { result.now ≡ phrase_of status }
    ensures short { length result.now ≤ 64 }
{
    // Read for its range only, in which each phrase is short.
    let _code = status.as_u16();
    match status.canonical_reason() {
        Some(phrase) => phrase.as_bytes(),
        None => b"",
    }
}

/// The header lines, in three pieces.
#[tactic(auto, unfolding(crate::specs::Replies::fields_text))]
fn field_pieces<'a>(fields: Fields<'a>) -> (&'a [u8], &'a [u8], &'a [u8])
    ensures text { result.0.now ++ (result.1.now ++ result.2.now) ≡ fields_text fields.entry }
    ensures short { length (fields_text fields.entry) ≤ 256 }
{
    if let Fields::ToProject(name) = fields {
        return (b"Location: /simple/", name_bytes(name), b"/\r\n");
    }
    (fixed_lines(fields), b"", b"")
}

/// The header lines that have no name in them.
#[tactic(auto, unfolding(crate::specs::Replies::fields_text))]
fn fixed_lines(fields: Fields<'_>) -> &'static [u8]
    ensures text { IsFixed fields.entry → result.now ≡ fields_text fields.entry }
    ensures short { length result.now ≤ 256 }
{
    match fields {
        Fields::Page(served) => page_lines(served),
        Fields::File => b"Content-Type: application/octet-stream\r\n",
        Fields::Json => b"Content-Type: application/json\r\n",
        Fields::Challenge => b"Content-Type: application/json\r\nWWW-Authenticate: Index-Token\r\n",
        Fields::Allow(allowed) => allow_lines(allowed),
        Fields::ToRoot => b"Location: /simple/\r\n",
        Fields::ToProject(_) => b"",
    }
}

/// The header line with the type of a page.
#[tactic(auto, unfolding(crate::specs::Replies::fields_text))]
fn page_lines(served: Served) -> &'static [u8]
    ensures { IsShortText 256 (fields_text (Fields.Page served)) result.now }
{
    match served {
        Served::PlainHtml => b"Content-Type: text/html\r\n",
        Served::Html => b"Content-Type: application/vnd.pypi.simple.v1+html\r\n",
        Served::Json => b"Content-Type: application/vnd.pypi.simple.v1+json\r\n",
    }
}

/// The header lines of the reply to a method that the path does not have.
#[tactic(auto, unfolding(crate::specs::Replies::fields_text))]
fn allow_lines(allowed: Allowed) -> &'static [u8]
    ensures { IsShortText 256 (fields_text (Fields.Allow allowed)) result.now }
{
    match allowed {
        Allowed::Reading => b"Content-Type: application/json\r\nAllow: GET, HEAD\r\n",
        Allowed::Files => b"Content-Type: application/json\r\nAllow: DELETE, GET, HEAD, PUT\r\n",
        Allowed::Requests => b"Content-Type: application/json\r\nAllow: POST\r\n",
    }
}

/// The bytes of a name: at most 128.
fn name_bytes(name: &NormalName) -> &[u8]
    ensures text { result.now ≡ name.now }
    ensures short { length name.now ≤ 128 }
{
    name.text().as_bytes()
}
