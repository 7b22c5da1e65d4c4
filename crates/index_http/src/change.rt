//! Requests that change something.
ghost use Rattle.std.specs.Prelude.{◌≡◌, Some, IfOk, false};
ghost use Rattle.index_json.specs.Requests.{request_of};
ghost use Rattle.index_message.specs.Resources.{is_reading};
ghost use Rattle.index_message.specs.declared.message.Message.TheVariants.{Whole};
ghost use Rattle.index_http.specs.Asks.{MessageIsAnswered};
ghost use Rattle.index_http.specs.Steps.{at_desk, to_sink};
ghost use Rattle.index_http.specs.Exchanges.{asked_by as asked_by_lem, asked_of_file as asked_of_file_lem, call_of as call_of_lem};

use crate::connection::IoEnd;
use crate::reply::{answer_reply, message_reply};
use crate::send::send_reply;
use index_desk::Desk;
use index_digest::Digest256;
use index_io::Sink;
use index_json::read_request;
use index_message::{HttpRequest, MessageFault, Method, Resource};
use index_rules::{Books, Bytes, Call, Request};
use std::alloc::{AllocError, Global};

/// Applies a request that changes something and writes the reply. Writing the reply takes no memory.
pub fn act<K: Sink, B: Books>(
    alloc: Global,
    sink: &mut K,
    desk: &mut Desk<B>,
    at: u64,
    request: &HttpRequest,
    body: Bytes,
) -> Result<(), IoEnd>
    requires { is_reading request.now.method ≡ false }
    ensures { MessageIsAnswered at (Whole request.now body)
        (at_desk B.Books desk.old desk.new) (to_sink K.Sink sink.old sink.new) result }
{
    let method = request.method();
    let Some(call) = call_of(alloc, at, request, body)? else {
        return send_reply(sink, method.is_head(), message_reply(MessageFault::BadBody));
    };
    let answer = desk.apply(alloc, call);
    send_reply(
        sink,
        method.is_head(),
        answer_reply(method.is_put(), &answer),
    )
}

/// The call that a request makes at a moment, or `None` if its body is not a valid request.
fn call_of(
    alloc: Global,
    at: u64,
    request: &HttpRequest,
    body: Bytes,
) -> Result<Option<Call>, AllocError>
    ensures { IfOk result (λ call. call ≡ call_of_lem at request.now body) }
{
    let Some(asked) = asked_by(alloc, request, body)? else {
        return Ok(None);
    };
    let token = Digest256::of(request.value(b"x-index-token"));
    Ok(Some(Call {
        at,
        token,
        request: asked,
    }))
}

/// The change that a request asks for.
fn asked_by(
    alloc: Global,
    request: &HttpRequest,
    body: Bytes,
) -> Result<Option<Request>, AllocError>
    ensures { IfOk result (λ asked. asked
        ≡ asked_by_lem request.now.method request.now.resource request.now.fields body) }
{
    match request.resource() {
        Resource::File(file) => asked_of_file(alloc, request, file, body),
        Resource::Requests => asked_in(alloc, body.as_slice()),
        _ => Ok(None),
    }
}

/// The change that a request asks of a file.
fn asked_of_file(
    alloc: Global,
    request: &HttpRequest,
    file: &Bytes,
    body: Bytes,
) -> Result<Option<Request>, AllocError>
    ensures { IfOk result (λ asked. asked
        ≡ asked_of_file_lem request.now.method file.now request.now.fields body) }
{
    match request.method() {
        Method::Put => Ok(Some(upload_of(alloc, request, file, body)?)),
        Method::Delete => {
            drop(body);
            let file = Bytes::copy_of(alloc, file.as_slice())?;
            Ok(Some(Request::Delete { file }))
        }
        _ => Ok(None),
    }
}

/// The upload of a file.
fn upload_of(
    alloc: Global,
    request: &HttpRequest,
    file: &Bytes,
    body: Bytes,
) -> Result<Request, AllocError>
    ensures { IfOk result (λ asked.
        Some asked ≡ asked_of_file_lem Method.Put file.now request.now.fields body) }
{
    let file = Bytes::copy_of(alloc, file.as_slice())?;
    let sha256 = Bytes::copy_of(alloc, request.value(b"x-index-sha256"))?;
    let requires_python = Bytes::copy_of(alloc, request.value(b"x-requires-python"))?;
    Ok(Request::Upload {
        file,
        sha256,
        body,
        requires_python,
    })
}

/// The request that a JSON body describes.
fn asked_in(alloc: Global, bytes: &[u8]) -> Result<Option<Request>, AllocError>
    ensures { IfOk result (λ asked. asked ≡ request_of bytes.now) }
{
    match read_request(alloc, bytes) {
        Ok(asked) => Ok(asked),
        Err(_) => Err(AllocError),
    }
}
