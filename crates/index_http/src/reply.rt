//! Replies: their statuses, header lines and bodies. None of them takes memory.
ghost use Rattle.std.specs.Prelude.{◌≡◌, [], false};
ghost use Rattle.index_json.specs.AnswerText.{message_text_of};
ghost use Rattle.index_http.specs.Exchanges.{refusal_reply, store_reply};
ghost use Rattle.index_http.specs.Replies.{answer_fields, answer_reply, fields_of_fault, file_reply, json_reply, message_fault_name, message_reply, page_reply, reply_of, redirect_to_project, redirect_to_root};
ghost use Rattle.index_http.specs.Statuses.{status_of_answer, status_of_fault, status_of_refusal};

use http::StatusCode;
use index_json::answer_text;
use index_message::{Allowed, MessageFault};
use index_names::NormalName;
use index_pages::Served;
use index_rules::{Answer, Fault, Refusal};

/// The header lines that differ from reply to reply.
#[derive(Clone, Copy)]
pub enum Fields<'a> {
    /// The content type of a page.
    Page(Served),
    /// The content type of a file.
    File,
    /// JSON.
    Json,
    /// JSON, and a challenge that asks for a token.
    Challenge,
    /// JSON, and the methods that the path allows.
    Allow(Allowed),
    /// The location of the root page, for a redirect.
    ToRoot,
    /// The location of a project's page, for a redirect.
    ToProject(&'a NormalName),
}

/// A reply.
#[derive(Clone, Copy)]
pub struct Reply<'a> {
    pub status: StatusCode,
    pub fields: Fields<'a>,
    pub body: &'a [u8],
}

/// The reply to a message that the index does not serve.
#[tactic(auto, unfolding(crate::specs::Replies::message_reply))]
pub fn message_reply(fault: MessageFault) -> Reply<'static>
    ensures { reply_of result ≡ message_reply fault }
{
    Reply {
        status: status_of_fault(fault),
        fields: fields_of_fault(fault),
        body: message_text(fault).as_bytes(),
    }
}

/// The reply to a call with this answer, by whether its method is `PUT`.
#[tactic(auto, unfolding(crate::specs::Replies::answer_reply))]
pub fn answer_reply(is_put: bool, answer: &Answer) -> Reply<'static>
    ensures { reply_of result ≡ answer_reply is_put answer.now }
{
    let status = status_of_answer(is_put, answer);
    Reply {
        status,
        fields: answer_fields(status),
        body: answer_text(answer).as_bytes(),
    }
}

/// The reply to a refused request.
pub fn refusal_reply(refusal: Refusal) -> Reply<'static>
    ensures { reply_of result ≡ refusal_reply refusal }
{
    answer_reply(false, &Answer::Refused(refusal))
}

/// The reply to a request that only reads, if the tables could not be read.
pub fn store_reply() -> Reply<'static>
    ensures { reply_of result ≡ store_reply }
{
    answer_reply(false, &Answer::Fault(Fault::Store))
}

/// The reply with the bytes of a file.
pub fn file_reply(bytes: &[u8]) -> Reply<'_>
    ensures { reply_of result ≡ file_reply bytes.now }
{
    Reply {
        status: StatusCode::OK,
        fields: Fields::File,
        body: bytes,
    }
}

/// The reply with the text of a page.
pub fn page_reply(served: Served, text: &[u8]) -> Reply<'_>
    ensures { reply_of result ≡ page_reply served text.now }
{
    Reply {
        status: StatusCode::OK,
        fields: Fields::Page(served),
        body: text,
    }
}

/// The reply with JSON.
pub fn json_reply(text: &[u8]) -> Reply<'_>
    ensures { reply_of result ≡ json_reply text.now }
{
    Reply {
        status: StatusCode::OK,
        fields: Fields::Json,
        body: text,
    }
}

/// A redirect to the root page.
pub fn redirect_to_root() -> Reply<'static>
    ensures { reply_of result ≡ redirect_to_root }
{
    Reply {
        status: StatusCode::MOVED_PERMANENTLY,
        fields: Fields::ToRoot,
        body: b"",
    }
}

/// A redirect to a project's page.
#[tactic(auto, unfolding(crate::specs::Replies::fields_text))]
pub fn redirect_to_project(name: &NormalName) -> Reply<'_>
    ensures { reply_of result ≡ redirect_to_project name.now }
{
    Reply {
        status: StatusCode::MOVED_PERMANENTLY,
        fields: Fields::ToProject(name),
        body: b"",
    }
}

/// The header lines of the reply to a malformed message.
fn fields_of_fault(fault: MessageFault) -> Fields<'static>
    ensures { result ≡ fields_of_fault fault }
{
    match fault {
        MessageFault::BadMethod(allowed) => Fields::Allow(allowed),
        _ => Fields::Json,
    }
}

/// The header lines of the reply to a call: status 401 adds a challenge that names the scheme of tokens.
fn answer_fields(status: StatusCode) -> Fields<'static>
    ensures { result ≡ answer_fields status }
{
    if status.as_u16() == 401 {
        Fields::Challenge
    } else {
        Fields::Json
    }
}

/// The body of the reply to a message that the index does not serve.
#[tactic(auto, unfolding(index_json::proofs::OnLiterals::answers_on_literals))]
fn message_text(fault: MessageFault) -> &'static str
    ensures { result.now ≡ message_text_of (message_fault_name fault) }
{
    match fault {
        MessageFault::BadHead => "{\"answer\":\"message\",\"name\":\"BadHead\"}",
        MessageFault::NoRoute => "{\"answer\":\"message\",\"name\":\"NoRoute\"}",
        MessageFault::BadMethod(_) => "{\"answer\":\"message\",\"name\":\"BadMethod\"}",
        MessageFault::BadLength => "{\"answer\":\"message\",\"name\":\"BadLength\"}",
        MessageFault::NoLength => "{\"answer\":\"message\",\"name\":\"NoLength\"}",
        MessageFault::BodyTooLarge => "{\"answer\":\"message\",\"name\":\"BodyTooLarge\"}",
        MessageFault::ShortBody => "{\"answer\":\"message\",\"name\":\"ShortBody\"}",
        MessageFault::BadBody => "{\"answer\":\"message\",\"name\":\"BadBody\"}",
        MessageFault::NotAcceptable => "{\"answer\":\"message\",\"name\":\"NotAcceptable\"}",
    }
}

/// The status of the reply to a call, by whether its method is `PUT`.
fn status_of_answer(is_put: bool, answer: &Answer) -> StatusCode
    ensures { result ≡ status_of_answer is_put answer.now }
{
    match answer {
        Answer::Accepted => status_of_accepted(is_put),
        Answer::Already => StatusCode::OK,
        Answer::Refused(refusal) => status_of_refusal(*refusal),
        Answer::Fault(Fault::OutOfMemory) => StatusCode::SERVICE_UNAVAILABLE,
        Answer::Fault(Fault::Store) => StatusCode::INTERNAL_SERVER_ERROR,
    }
}

/// The status of the reply to an accepted call: `PUT` creates a file.
fn status_of_accepted(is_put: bool) -> StatusCode
    ensures { result ≡ status_of_answer is_put Answer.Accepted }
{
    if is_put {
        StatusCode::CREATED
    } else {
        StatusCode::OK
    }
}

/// The status of the reply to a refused request.
fn status_of_refusal(refusal: Refusal) -> StatusCode
    ensures { result ≡ status_of_refusal refusal }
{
    match refusal {
        Refusal::BadToken => StatusCode::UNAUTHORIZED,
        Refusal::NotOffice
        | Refusal::NameProhibited
        | Refusal::NotOwner
        | Refusal::FileBanned
        | Refusal::OverQuota => StatusCode::FORBIDDEN,
        Refusal::NoUser | Refusal::NoProject | Refusal::NoFile | Refusal::NoRelease => {
            StatusCode::NOT_FOUND
        }
        Refusal::TooLarge => StatusCode::PAYLOAD_TOO_LARGE,
        Refusal::DigestMismatch => StatusCode::UNPROCESSABLE_ENTITY,
        Refusal::UserExists
        | Refusal::TokenTaken
        | Refusal::NameHeld
        | Refusal::LastOwner
        | Refusal::FilesRemain
        | Refusal::FileNameTaken
        | Refusal::QuotaBelowCharge
        | Refusal::CaseOpen
        | Refusal::OwnerCandidate
        | Refusal::NoCase
        | Refusal::AttemptsFull
        | Refusal::TooFewAttempts
        | Refusal::TooEarly
        | Refusal::RecentRelease
        | Refusal::HomePageActive => StatusCode::CONFLICT,
        Refusal::BadMoment
        | Refusal::BadUser
        | Refusal::BadName
        | Refusal::BadFileName
        | Refusal::BadRelease
        | Refusal::BadText
        | Refusal::BadDigest
        | Refusal::QuotaTooLarge => StatusCode::BAD_REQUEST,
    }
}

/// The status of the reply to a message that the index does not serve.
fn status_of_fault(fault: MessageFault) -> StatusCode
    ensures { result ≡ status_of_fault fault }
{
    match fault {
        MessageFault::BadHead
        | MessageFault::BadLength
        | MessageFault::ShortBody
        | MessageFault::BadBody => StatusCode::BAD_REQUEST,
        MessageFault::NoRoute => StatusCode::NOT_FOUND,
        MessageFault::BadMethod(_) => StatusCode::METHOD_NOT_ALLOWED,
        MessageFault::NoLength => StatusCode::LENGTH_REQUIRED,
        MessageFault::BodyTooLarge => StatusCode::PAYLOAD_TOO_LARGE,
        MessageFault::NotAcceptable => StatusCode::NOT_ACCEPTABLE,
    }
}
