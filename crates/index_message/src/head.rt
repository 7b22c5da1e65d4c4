//! The head of a request, read in pieces of any size: its header fields, as spans of its bytes, and the length of its
//! body.
ghost use Rattle.std.specs.Prelude.{◌≡◌, ◌≤◌, ◌<◌, [], length, vec_len, None, Ok, IfOk, IfSome, OnOk};
ghost use Rattle.httparse.specs.Spans.{IsHeaderWithin, header_bytes};
ghost use Rattle.index_message.specs.Fields.{AreFound, is_named as is_named_lem, values_of};
ghost use Rattle.index_message.specs.Heads.{HasNoHead, IsHeadAt, ReadFailsInHead, Tries, longest_head, most_fields};
ghost use Rattle.index_message.specs.Lengths.{at_most as at_most_lem, body_length as body_length_lem, length_in as length_in_lem, length_value, longest_upload};
ghost use Rattle.index_message.specs.Messages.{begins_with_head};
ghost use Rattle.index_message.specs.Reads.{FillsTo, GivesBytes, ReadsOnce, SourceReadsWithin, and_left, from_source};

use crate::fault::MessageFault;
use crate::resource::Method;
use httparse::Status;
use httparse::spans::{HeaderSpan, RequestSpans, parse_request};
use index_io::Source;
use std::alloc::AllocError;
use std::marker::Model;

/// The most bytes of a head.
const LONGEST_HEAD: usize = 16_384;

/// The most header fields of a head.
pub const MOST_FIELDS: usize = 64;

/// The most bytes that are asked for in one read.
const PIECE: usize = 4096;

/// The most bytes of an uploaded file.
const LONGEST_UPLOAD: u64 = 16_777_216;

/// The most bytes of a request in JSON.
const LONGEST_REQUEST: u64 = 65_536;

/// Why nothing was read.
#[derive(Clone, Copy, Debug, PartialEq, Eq)]
pub enum ReadEnd {
    /// A read failed.
    ReadFault,
    OutOfMemory,
}

/// The result of parsing the bytes so far.
pub enum Tried {
    /// They begin with a head.
    Whole(RequestSpans),
    /// They do not begin with a head, whatever follows.
    Never,
    /// They are not a whole head yet.
    Unfinished,
}

/// Reads a head, and possibly bytes behind it. Returns `None` if the input does not begin with a head.
pub fn read_head<S: Source>(
    source: &mut S,
    held: &mut Vec<u8>,
    fields: &mut [HeaderSpan],
) -> Result<Option<RequestSpans>, ReadEnd>
    requires empty { held.old.items ≡ [] }
    requires room { length fields.old ≡ most_fields }
    ensures short { vec_len held.new ≤ longest_head }
    ensures consumed { OnOk result (GivesBytes S.Source source.old source.new held.new.items) }
    ensures head { IfOk result (λ found. IfSome found (IsHeadAt held.new.items fields.new)) }
    ensures none { result ≡ Ok None → HasNoHead (and_left held.new.items (S.remaining source.new)) }
    ensures method { result ≡ Ok None → begins_with_head
        (and_left held.new.items (S.remaining source.new)) ≡ begins_with_head held.new.items }
    ensures prompt { ReadFailsInHead S.Source source.old source.new held.new.items result }
    ensures reads { SourceReadsWithin S.Source source.old source.new longest_head result }
{
    while held.len() < LONGEST_HEAD {
        if read_more(source, held, LONGEST_HEAD)? == 0 {
            return Ok(None);
        }
        match try_head(held.as_slice(), fields) {
            Tried::Whole(spans) => return Ok(Some(spans)),
            Tried::Never => return Ok(None),
            Tried::Unfinished => {}
        }
    }
    Ok(None)
}

/// Parses the bytes that came so far.
fn try_head(bytes: &[u8], fields: &mut [HeaderSpan]) -> Tried
    requires room { length fields.old ≡ most_fields }
    ensures tries { Tries result bytes.now fields.new }
{
    match parse_request(bytes, fields) {
        Ok(Status::Complete(spans)) => Tried::Whole(spans),
        Ok(Status::Partial) => Tried::Unfinished,
        Err(_) => Tried::Never,
    }
}

/// Reads until `held` has this many bytes or the input ends, and returns whether it has them.
pub fn read_up_to<S: Source>(
    source: &mut S,
    held: &mut Vec<u8>,
    wanted: usize,
) -> Result<bool, ReadEnd>
    ensures { FillsTo (from_source S.Source source.old source.new) held.old held.new wanted result }
{
    while held.len() < wanted {
        if read_more(source, held, wanted)? == 0 {
            return Ok(false);
        }
    }
    Ok(true)
}

/// Reads once, up to this many bytes in all, appends them, and returns their number. It is 0 only at the end of the
/// input.
fn read_more<S: Source>(source: &mut S, held: &mut Vec<u8>, most: usize) -> Result<usize, ReadEnd>
    requires room { vec_len held.old < most }
    ensures { ReadsOnce (from_source S.Source source.old source.new) held.old held.new most result }
{
    let mut piece = [0u8; PIECE];
    let room = PIECE.min(most - held.len());
    // Memory is taken before the read: if it runs out, no byte that came is lost.
    held.reserve(room)?;
    let Ok(came) = source.give(&mut piece[..room]) else {
        return Err(ReadEnd::ReadFault);
    };
    held.extend_from_slice(&piece[..came])?;
    Ok(came)
}

impl From<AllocError> for ReadEnd {
    ghost use Rattle.index_message.specs.declared.head.ReadEnd.TheVariants.{OutOfMemory};

    ghost from_gives = { λ _ end. end ≡ OutOfMemory };

    fn from(_error: AllocError) -> ReadEnd {
        ReadEnd::OutOfMemory
    }
}

/// How often a field occurs in a head.
#[derive(Clone, Copy)]
pub enum Found<'a> {
    Missing,
    Once(&'a [u8]),
    Again,
}

/// Whether a field has this name, in any case.
pub fn is_named(bytes: &[u8], field: &HeaderSpan, name: &[u8]) -> bool
    requires { IsHeaderWithin (length bytes.now) field.now }
    ensures { result ≡ is_named_lem name.now (header_bytes bytes.now field.now) }
{
    field.name.of(bytes).eq_ignore_ascii_case(name)
}

/// A head, as spans of the bytes that came. Contracts see its parts.
#[derive(Drop)]
pub struct Head<'a> {
    pub bytes: &'a [u8],
    pub spans: &'a RequestSpans,
    pub fields: &'a [HeaderSpan],
}

impl<'a> Model for Head<'a> {
    ghost use Rattle.std.specs.Prelude.{All, length, map};
    ghost use Rattle.httparse.specs.Spans.{IsHeaderWithin, IsWithin, header_bytes, span_bytes};
    ghost use Rattle.index_message.specs.Requests.{HeadParts};

    ghost Value = { HeadParts };

    ghost view = { λ h. record {
      method = span_bytes h.bytes.now h.spans.now.method;
      target = span_bytes h.bytes.now h.spans.now.path;
      fields = map (header_bytes h.bytes.now) h.fields.now;
    } };

    ghost invariant = { λ h. IsWithin (length h.bytes.now) h.spans.now.method
        × (IsWithin (length h.bytes.now) h.spans.now.path
        × All (IsHeaderWithin (length h.bytes.now)) h.fields.now) };
}

impl<'a> Head<'a> {
    /// The length in bytes of the body that is read. Only `PUT` and `POST` have one.
    #[tactic(auto, unfolding(crate::specs::Lengths::body_length))]
    pub fn body_length(&self, method: Method) -> Result<u64, MessageFault>
        ensures length { result ≡ body_length_lem method self.now.fields }
        ensures bound { IfOk result (λ number. number ≤ longest_upload) }
    {
        match method {
            Method::Put => self.length_in(LONGEST_UPLOAD),
            Method::Post => self.length_in(LONGEST_REQUEST),
            _ => Ok(0),
        }
    }

    /// The length in the fields, up to a limit.
    fn length_in(&self, limit: u64) -> Result<u64, MessageFault>
        ensures length { result ≡ length_in_lem limit self.now.fields }
        ensures bound { IfOk result (λ number. number ≤ limit) }
    {
        match self.find(b"transfer-encoding") {
            Found::Missing => {}
            _ => return Err(MessageFault::BadLength),
        }
        match self.find(b"content-length") {
            Found::Missing => Err(MessageFault::NoLength),
            Found::Once(value) => at_most(limit, number_of(value)),
            Found::Again => Err(MessageFault::BadLength),
        }
    }

    /// How often a field with this name occurs in the head.
    fn find(&self, name: &[u8]) -> Found<'a>
        ensures { AreFound result (values_of name.now self.now.fields) }
    {
        let bytes = self.bytes;
        let fields = self.fields;
        let mut found = None;
        for field in fields {
            if is_named(bytes, field, name) {
                if found.is_some() {
                    return Found::Again;
                }
                found = Some(field.value.of(bytes));
            }
        }
        match found {
            Some(value) => Found::Once(value),
            None => Found::Missing,
        }
    }
}

/// A number up to the limit. `BadLength` if the value was not a number, `BodyTooLarge` above the limit.
fn at_most(limit: u64, number: Option<u64>) -> Result<u64, MessageFault>
    ensures length { result ≡ at_most_lem limit number }
    ensures bound { IfOk result (λ number. number ≤ limit) }
{
    match number {
        None => Err(MessageFault::BadLength),
        Some(number) => {
            if number > limit {
                Err(MessageFault::BodyTooLarge)
            } else {
                Ok(number)
            }
        }
    }
}

/// The number of a text of 1 to 18 digits.
fn number_of(value: &[u8]) -> Option<u64>
    ensures { result ≡ length_value value.now }
{
    if value.is_empty() || value.len() > 18 {
        return None;
    }
    let mut number = 0u64;
    for digit in value {
        if !digit.is_ascii_digit() {
            return None;
        }
        number = number * 10 + u64::from(*digit - b'0');
    }
    Some(number)
}
