//! One message, read from any source: a request and its body, or a fault.
ghost use Rattle.std.specs.Prelude.{◌≡◌, ◌≤◌, ◌-◌, true, length, Err, IfErr, IfOk, All};
ghost use Rattle.httparse.specs.Spans.{IsHeaderWithin, IsRequestWithin};
ghost use Rattle.index_message.specs.Fields.{AreValues, fields_at, value_of, values_of};
ghost use Rattle.index_message.specs.Lengths.{longest_upload};
ghost use Rattle.index_message.specs.Messages.{BeginsWith, GivesBody, MayHaveHead, ReadFailsInMessage, ReadsRest, asked_in, is_head_name, longest_message, request_asked, whole_of};
ghost use Rattle.index_message.specs.Reads.{ReadEndsEarly, SourceReadsWithin, from_source};
ghost use Rattle.index_message.specs.Resources.{has_route};
ghost use Rattle.index_message.specs.declared.message.Message.TheVariants.{Faulty};

use crate::fault::MessageFault;
use crate::head::{Head, MOST_FIELDS, ReadEnd, is_named, read_head, read_up_to};
use crate::resource::{Method, Resource, Site, resolve_target};
use httparse::spans::{EMPTY_HEADER_SPAN, HeaderSpan, RequestSpans};
use index_io::Source;
use index_rules::Bytes;
use std::alloc::{AllocError, Global};
use std::marker::Model;

/// The message of a connection.
#[derive(Drop)]
pub enum Message {
    /// A fault, and whether the method is `HEAD`, whose reply has no body.
    Faulty { fault: MessageFault, is_head: bool },
    /// A request, and its body.
    Whole { request: HttpRequest, body: Bytes },
}

/// Reads the message at the front of the input: at most 16,384 bytes of head and 16,777,216 of body.
///
/// # Errors
///
/// `ReadFault` if a read fails, and `OutOfMemory` if memory runs out.
pub fn read_message<S: Source>(
    alloc: Global,
    site: &Site,
    source: &mut S,
) -> Result<Message, ReadEnd>
    ensures message { IfOk result (BeginsWith (S.remaining source.old)) }
    ensures prompt { ReadFailsInMessage S.Source source.old source.new result }
    ensures memory { result ≡ Err ReadEnd.OutOfMemory
        → MayHaveHead (S.remaining source.old) (S.remaining source.new) }
    ensures reads { SourceReadsWithin S.Source source.old source.new longest_message result }
{
    let mut bytes = Vec::new(alloc);
    let mut fields = [EMPTY_HEADER_SPAN; MOST_FIELDS];
    let Some(spans) = read_head(source, &mut bytes, &mut fields)? else {
        return Ok(Message::Faulty {
            fault: MessageFault::BadHead,
            is_head: bytes.as_slice().starts_with(b"HEAD "),
        });
    };
    read_rest(alloc, site, source, bytes, &fields, spans)
}

/// Reads the rest of a message, behind its head.
fn read_rest<S: Source>(
    alloc: Global,
    site: &Site,
    source: &mut S,
    bytes: Vec<u8>,
    fields: &[HeaderSpan],
    spans: RequestSpans,
) -> Result<Message, ReadEnd>
    requires within { IsRequestWithin bytes.items fields.now spans }
    ensures { ReadsRest (from_source S.Source source.old source.new) bytes fields.now spans result }
{
    let came = bytes.as_slice();
    let fields = &fields[..spans.headers];
    let head = Head {
        bytes: came,
        spans: &spans,
        fields,
    };
    let asked = match what_is_asked(alloc, site, &head)? {
        Ok(asked) => asked,
        Err(fault) => return Ok(faulty_message(&head, fault)),
    };
    match read_body(alloc, source, &came[spans.len..], asked.length)? {
        Some(body) => whole_message(alloc, asked, bytes, fields, body),
        None => Ok(faulty_message(&head, MessageFault::ShortBody)),
    }
}

/// The message of a head with a fault.
fn faulty_message(head: &Head<'_>, fault: MessageFault) -> Message
    ensures { result ≡ Faulty fault (is_head_name head.now.method) }
{
    Message::Faulty {
        fault,
        is_head: head.spans.method.of(head.bytes) == b"HEAD".as_slice(),
    }
}

/// What a head asks for, or its first fault.
fn what_is_asked(
    alloc: Global,
    site: &Site,
    head: &Head<'_>,
) -> Result<Result<Asked, MessageFault>, AllocError>
    ensures bound { IfOk result (λ asked. IfOk asked (λ asked. asked.length ≤ longest_upload)) }
    ensures asked { IfOk result (λ asked. asked ≡ asked_in head.now) }
    ensures routed { IfErr result (λ _. has_route head.now.target ≡ true) }
{
    let name = head.spans.method.of(head.bytes);
    let target = head.spans.path.of(head.bytes);
    let (resource, method) = match resolve_target(alloc, site, name, target)? {
        Ok(target) => target,
        Err(fault) => return Ok(Err(fault)),
    };
    match head.body_length(method) {
        Ok(length) => Ok(Ok(Asked {
            resource,
            method,
            length,
        })),
        Err(fault) => {
            drop(resource);
            Ok(Err(fault))
        }
    }
}

/// Reads a body of this length, whose front came with the head. Returns `None` if the input ends before it is whole.
fn read_body<S: Source>(
    alloc: Global,
    source: &mut S,
    front: &[u8],
    size: u64,
) -> Result<Option<Bytes>, ReadEnd>
    ensures body { IfOk result (GivesBody S.Source source.old source.new size front.now) }
    ensures prompt { ReadEndsEarly S.Source source.old source.new (size - length front.now) result }
    ensures reads { SourceReadsWithin S.Source source.old source.new size result }
{
    let size = size as usize;
    let mut body = Vec::from_slice(alloc, front)?;
    if !read_up_to(source, &mut body, size)? {
        return Ok(None);
    }
    body.truncate(size);
    Ok(Some(Bytes::new(body)))
}

/// The message of a request and its body.
fn whole_message(
    alloc: Global,
    asked: Asked,
    bytes: Vec<u8>,
    fields: &[HeaderSpan],
    body: Bytes,
) -> Result<Message, ReadEnd>
    requires within { All (IsHeaderWithin (length bytes.items)) fields.now }
    ensures message { IfOk result (λ message.
        message ≡ whole_of asked (fields_at bytes.items fields.now) body) }
    ensures memory { IfErr result (λ end. end ≡ ReadEnd.OutOfMemory) }
{
    let fields = Vec::from_slice(alloc, fields)?;
    Ok(Message::Whole {
        request: HttpRequest::new(asked, bytes, fields),
        body,
    })
}

/// What the request line and the fields of a head ask for.
pub struct Asked {
    pub resource: Resource,
    pub method: Method,
    /// The length of the body in bytes.
    pub length: u64,
}

// By hand: a drop is then one call at each exit of a function (docs/developers/PROOF-COSTS.md).
impl Drop for Asked {
    fn drop(self) {
        let Asked {
            resource: _resource,
            method: _method,
            length: _length,
        } = self;
    }
}

/// The head of a request with one of the resource's methods. Contracts see its parts.
pub struct HttpRequest {
    asked: Asked,
    bytes: Vec<u8>,
    fields: Vec<HeaderSpan>,
}

// By hand, as above.
impl Drop for HttpRequest {
    fn drop(self) {
        let HttpRequest {
            asked: _asked,
            bytes: _bytes,
            fields: _fields,
        } = self;
    }
}

impl Model for HttpRequest {
    ghost use Rattle.std.specs.Prelude.{All, length, map};
    ghost use Rattle.httparse.specs.Spans.{IsHeaderWithin, header_bytes};
    ghost use Rattle.index_message.specs.Requests.{HttpRequest};

    ghost Value = { HttpRequest };

    ghost view = { λ r. record {
      method = r.asked.method;
      resource = r.asked.resource;
      fields = map (header_bytes r.bytes.items) r.fields.items;
    } };

    ghost invariant = { λ r. All (IsHeaderWithin (length r.bytes.items)) r.fields.items };
}

impl HttpRequest {
    /// The method, which is one of the resource's.
    pub fn method(&self) -> Method
        ensures { result ≡ self.now.method }
    {
        self.asked.method
    }

    /// The resource of the target.
    pub fn resource(&self) -> &Resource
        ensures { result.now ≡ self.now.resource }
    {
        &self.asked.resource
    }

    /// The value of the first field with this name, in any case, without the white space around it (RFC 9110, sections
    /// 5.1 and 5.5), or nothing if there is none.
    pub fn value(&self, name: &[u8]) -> &[u8]
        ensures { result.now ≡ value_of name.now self.now.fields }
    {
        let bytes = self.bytes.as_slice();
        let fields = self.fields.as_slice();
        for field in fields {
            if is_named(bytes, field, name) {
                return field.value.of(bytes);
            }
        }
        b""
    }

    /// The values of all fields with this name, in order.
    pub fn values(&self, alloc: Global, name: &[u8]) -> Result<Vec<&[u8]>, AllocError>
        ensures { IfOk result (AreValues (values_of name.now self.now.fields)) }
    {
        let bytes = self.bytes.as_slice();
        let fields = self.fields.as_slice();
        let mut values = Vec::new(alloc);
        for field in fields {
            if is_named(bytes, field, name) {
                values.push(field.value.of(bytes))?;
            }
        }
        Ok(values)
    }

    /// The request that asks for this, with the fields in its bytes.
    pub(crate) fn new(asked: Asked, bytes: Vec<u8>, fields: Vec<HeaderSpan>) -> HttpRequest
        requires { All (IsHeaderWithin (length bytes.items)) fields.items }
        ensures { result ≡ request_asked asked (fields_at bytes.items fields.items) }
    {
        HttpRequest {
            asked,
            bytes,
            fields,
        }
    }
}
