//! The rows of requests on retention cases (PEP 541).
ghost use Rattle.index_json.specs.Reading.{ObjectIsReadTo};
ghost use Rattle.index_json.specs.Requests.{attempt_means as attempt_means_lem, case_kind as case_kind_lem, request_on_case, open_case_row, record_attempt_row, transfer_row};

use crate::object_reader::{ObjectReader, Unread};
use index_retention::{CaseKind, Means};
use index_rules::Request;
use std::alloc::Global;

/// The request on a case of an object, whose `do` is this word.
pub fn request_named(
    alloc: Global,
    word: &str,
    object: &mut ObjectReader<'_>,
) -> Result<Request, Unread>
    ensures { ObjectIsReadTo object.old object.new result (request_on_case word.now) }
{
    match word {
        "open_case" => open_case(alloc, object),
        "record_attempt" => record_attempt(alloc, object),
        "transfer" => transfer(alloc, object),
        "close_case" => object
            .bytes(alloc, "name")
            .map(|name| Request::CloseCase { name }),
        "answer_case" => object
            .bytes(alloc, "name")
            .map(|name| Request::AnswerCase { name }),
        _ => Err(Unread::NotARequest),
    }
}

/// Reads the keys of an `open_case`.
fn open_case(alloc: Global, object: &mut ObjectReader<'_>) -> Result<Request, Unread>
    ensures { ObjectIsReadTo object.old object.new result open_case_row }
{
    let kind = case_kind(object)?;
    let (name, contact) = object.two_texts(alloc, "name", "contact")?;
    let (work, why) = object.two_texts(alloc, "work", "why")?;
    Ok(Request::OpenCase {
        name,
        kind,
        contact,
        work,
        why,
    })
}

/// Reads the keys of a `record_attempt`.
fn record_attempt(alloc: Global, object: &mut ObjectReader<'_>) -> Result<Request, Unread>
    ensures { ObjectIsReadTo object.old object.new result record_attempt_row }
{
    let means = attempt_means(object)?;
    let sent = object.flag("sent")?;
    let name = object.bytes(alloc, "name")?;
    Ok(Request::RecordAttempt { name, means, sent })
}

/// Reads the keys of a `transfer`.
fn transfer(alloc: Global, object: &mut ObjectReader<'_>) -> Result<Request, Unread>
    ensures { ObjectIsReadTo object.old object.new result transfer_row }
{
    let quiet = object.flag("quiet")?;
    let name = object.bytes(alloc, "name")?;
    Ok(Request::Transfer { name, quiet })
}

/// The kind of a case, from its text.
fn case_kind(object: &mut ObjectReader<'_>) -> Result<CaseKind, Unread>
    ensures { ObjectIsReadTo object.old object.new result case_kind_lem }
{
    match object.text("kind")? {
        "continue" => Ok(CaseKind::Continue),
        "reuse" => Ok(CaseKind::Reuse),
        _ => Err(Unread::NotARequest),
    }
}

/// The means of an attempt, from its text.
fn attempt_means(object: &mut ObjectReader<'_>) -> Result<Means, Unread>
    ensures { ObjectIsReadTo object.old object.new result attempt_means_lem }
{
    match object.text("means")? {
        "profile" => Ok(Means::Profile),
        "author" => Ok(Means::Author),
        "pages" => Ok(Means::Pages),
        _ => Err(Unread::NotARequest),
    }
}
