//! Parses lines of input, and request bodies.
ghost use Rattle.std.specs.Prelude.{◌≡◌, IfOk};
ghost use Rattle.serde_json.specs.View.{view};
ghost use Rattle.index_rules.specs.Memory.{OkOrNoMemory};
ghost use Rattle.index_json.specs.Json.{json_of};
ghost use Rattle.index_json.specs.Keys.{SaysLine, SaysRequest};
ghost use Rattle.index_json.specs.Line.{call_row, line_of, line_row, row_of_word};
ghost use Rattle.index_json.specs.Reading.{ObjectIsReadTo, ResultIsRead, ResultIsReadAs, read_whole};
ghost use Rattle.index_json.specs.Requests.{request_of, request_row};

use crate::object_reader::{ObjectReader, Unread};
use crate::request::request_named;
use index_digest::Digest256;
use index_rules::{Bytes, Call, Fault, Request};
use serde_json::Value;
use std::alloc::Global;

/// What a line of input asks for.
#[derive(Drop)]
pub enum Line {
    /// A request at a moment, by the bearer of a token.
    Call(Call),
    /// The standing of the name with these bytes.
    Standing(Bytes),
}

/// Parses a line without its line feed: a JSON object (RFC 8259) of one of the rows in `FORMATS.md`. Returns `None` if
/// the line is malformed.
///
/// # Errors
///
/// `OutOfMemory`.
#[tactic(auto, unfolding(crate::specs::Line::line_of))]
pub fn read_line(alloc: Global, line: &[u8]) -> Result<Option<Line>, Fault>
    // Exactly the line that has the keys of the object, or nothing if none has.
    ensures keys { IfOk result (SaysLine line.now) }
    ensures line { OkOrNoMemory result (λ read. read ≡ line_of line.now) }
{
    match line_read(alloc, line) {
        Ok(line) => Ok(Some(line)),
        Err(Unread::NotARequest) => Ok(None),
        Err(Unread::OutOfMemory) => Err(Fault::OutOfMemory),
    }
}

/// Parses a request, with only the keys of its row. Returns `None` if it is malformed.
///
/// # Errors
///
/// `OutOfMemory`.
#[tactic(auto, unfolding(crate::specs::Requests::request_of))]
pub fn read_request(alloc: Global, bytes: &[u8]) -> Result<Option<Request>, Fault>
    // Exactly the request that has the keys of the object, or nothing if none has.
    ensures keys { IfOk result (SaysRequest bytes.now) }
    ensures request { OkOrNoMemory result (λ read. read ≡ request_of bytes.now) }
{
    match request_read(alloc, bytes) {
        Ok(request) => Ok(Some(request)),
        Err(Unread::NotARequest) => Ok(None),
        Err(Unread::OutOfMemory) => Err(Fault::OutOfMemory),
    }
}

/// ResultIsRead a line, or returns why it can't be read.
#[tactic(auto, unfolding(crate::specs::Line::line_of))]
fn line_read(alloc: Global, line: &[u8]) -> Result<Line, Unread>
    ensures { ResultIsRead result (line_of line.now) }
{
    let value = parse(alloc, line)?;
    line_in(alloc, &value)
}

/// ResultIsRead a request, or returns why it can't be read.
#[tactic(auto, unfolding(crate::specs::Requests::request_of))]
fn request_read(alloc: Global, bytes: &[u8]) -> Result<Request, Unread>
    ensures { ResultIsRead result (request_of bytes.now) }
{
    let value = parse(alloc, bytes)?;
    request_in(alloc, &value)
}

/// Parses a JSON value. Malformed bytes are of no row.
fn parse(alloc: Global, bytes: &[u8]) -> Result<Value, Unread>
    ensures { ResultIsReadAs view result (json_of bytes.now) }
{
    match Value::from_slice(alloc, bytes) {
        Ok(value) => Ok(value),
        Err(error) if error.is_memory() => Err(Unread::OutOfMemory),
        Err(_) => Err(Unread::NotARequest),
    }
}

/// The line of an object, if it has no further key.
fn line_in(alloc: Global, value: &Value) -> Result<Line, Unread>
    ensures { ResultIsRead result (read_whole line_row (view value.now)) }
{
    let mut object = ObjectReader::of(value);
    let word = object.text("do")?;
    let line = line_named(alloc, word, &mut object)?;
    object.finish(line)
}

/// The request of an object, if it has no further key.
fn request_in(alloc: Global, value: &Value) -> Result<Request, Unread>
    ensures { ResultIsRead result (read_whole request_row (view value.now)) }
{
    let mut object = ObjectReader::of(value);
    let word = object.text("do")?;
    let request = request_named(alloc, word, &mut object)?;
    object.finish(request)
}

/// What an object asks for, whose `do` is this word.
fn line_named(alloc: Global, word: &str, object: &mut ObjectReader<'_>) -> Result<Line, Unread>
    ensures { ObjectIsReadTo object.old object.new result (row_of_word word.now) }
{
    match word {
        "standing" => object.bytes(alloc, "name").map(Line::Standing),
        word => call_in(alloc, word, object),
    }
}

/// The call of an object, whose `do` is this word. Its token is kept as its digest.
fn call_in(alloc: Global, word: &str, object: &mut ObjectReader<'_>) -> Result<Line, Unread>
    ensures { ObjectIsReadTo object.old object.new result (call_row word.now) }
{
    let at = object.number("at")?;
    let token = object.text("token")?;
    let request = request_named(alloc, word, object)?;
    let token = Digest256::of(token.as_bytes());
    Ok(Line::Call(Call { at, token, request }))
}
