//! The rows of requests on files and releases.
ghost use Rattle.std.specs.Prelude.{◌≡◌, ◌%◌, length, Err};
ghost use Rattle.index_json.specs.Json.{hex_bytes};
ghost use Rattle.index_json.specs.Reading.{ObjectIsReadTo, ResultIsRead};
ghost use Rattle.index_json.specs.Requests.{ban_file_row, body as body_lem, delete_row, request_on_file, unyank_row, upload_row, yank_row};

use super::cases;
use crate::object_reader::{ObjectReader, Unread};
use hex::FromHexError;
use index_rules::{Bytes, Request};
use std::alloc::Global;

/// The request of an object, whose `do` is this word and not one of a request on users, names or owners.
pub fn request_named(
    alloc: Global,
    word: &str,
    object: &mut ObjectReader<'_>,
) -> Result<Request, Unread>
    ensures { ObjectIsReadTo object.old object.new result (request_on_file word.now) }
{
    match word {
        "upload" => upload(alloc, object),
        "delete" => delete(alloc, object),
        "ban_file" => ban_file(alloc, object),
        "yank" => yank(alloc, object),
        "unyank" => unyank(alloc, object),
        word => cases::request_named(alloc, word, object),
    }
}

/// ResultIsRead the keys of an `upload`.
fn upload(alloc: Global, object: &mut ObjectReader<'_>) -> Result<Request, Unread>
    ensures { ObjectIsReadTo object.old object.new result upload_row }
{
    let body = body(alloc, object)?;
    let requires_python = object.bytes(alloc, "requires_python")?;
    let (file, sha256) = object.two_texts(alloc, "file", "sha256")?;
    Ok(Request::Upload {
        file,
        sha256,
        body,
        requires_python,
    })
}

/// ResultIsRead the keys of a `delete`.
fn delete(alloc: Global, object: &mut ObjectReader<'_>) -> Result<Request, Unread>
    ensures { ObjectIsReadTo object.old object.new result delete_row }
{
    object
        .bytes(alloc, "file")
        .map(|file| Request::Delete { file })
}

/// ResultIsRead the keys of a `ban_file`.
fn ban_file(alloc: Global, object: &mut ObjectReader<'_>) -> Result<Request, Unread>
    ensures { ObjectIsReadTo object.old object.new result ban_file_row }
{
    object
        .bytes(alloc, "file")
        .map(|file| Request::BanFile { file })
}

/// ResultIsRead the keys of a `yank`.
fn yank(alloc: Global, object: &mut ObjectReader<'_>) -> Result<Request, Unread>
    ensures { ObjectIsReadTo object.old object.new result yank_row }
{
    let reason = object.bytes(alloc, "reason")?;
    let (name, release) = object.two_texts(alloc, "name", "release")?;
    Ok(Request::Yank {
        name,
        release,
        reason,
    })
}

/// ResultIsRead the keys of an `unyank`.
fn unyank(alloc: Global, object: &mut ObjectReader<'_>) -> Result<Request, Unread>
    ensures { ObjectIsReadTo object.old object.new result unyank_row }
{
    let texts = object.two_texts(alloc, "name", "release");
    texts.map(|(name, release)| Request::Unyank { name, release })
}

/// The bytes of a row's body, from its hex digits.
fn body(alloc: Global, object: &mut ObjectReader<'_>) -> Result<Bytes, Unread>
    ensures { ObjectIsReadTo object.old object.new result body_lem }
{
    let digits = object.text("hex")?;
    bytes_of_hex(alloc, digits)
}

/// The bytes of a text of hex digits, in either case.
fn bytes_of_hex(alloc: Global, digits: &str) -> Result<Bytes, Unread>
    ensures bytes { ResultIsRead result (hex_bytes digits.now) }
    ensures odd { length digits.now % 2 ≡ 1 → result ≡ Err Unread.NotARequest }
{
    match hex::decode(alloc, digits) {
        Ok(bytes) => Ok(Bytes::new(bytes)),
        Err(FromHexError::OutOfMemory) => Err(Unread::OutOfMemory),
        Err(_) => Err(Unread::NotARequest),
    }
}
