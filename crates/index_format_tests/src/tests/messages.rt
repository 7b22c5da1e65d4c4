//! Messages, and short texts that describe them.
use index_io::Input;
use index_message::{
    Allowed, HttpRequest, Message, MessageFault, Method, Resource, Site, read_message,
};
use index_rules::Bytes;
use index_test_support::ShortReader;
use std::alloc::AllocGlobal;
use std::process::Abort;

mod fields;
mod heads;
mod lengths;
mod plain;
mod reads;
mod targets;

fn site(rt: &(impl Abort + AllocGlobal)) -> Site {
    Site::new(rt.alloc()).expect(rt, "the routes")
}

/// The message that these bytes begin with has this text, whether they come at once or one by one.
fn assert_message(rt: &(impl Abort + AllocGlobal), site: &Site, bytes: &[u8], text: &str) {
    for at_a_time in [usize::MAX, 1] {
        let reader = ShortReader {
            rest: bytes,
            at_a_time,
            fails: false,
        };
        assert_read(rt, site, reader, text);
    }
}

fn assert_read(rt: &(impl Abort + AllocGlobal), site: &Site, reader: ShortReader<'_>, text: &str) {
    let mut input = Input::new(reader);
    let message = read_message(rt.alloc(), site, &mut input).expect(rt, text);
    let told = text_of(rt, &message);
    drop(message);
    assert_eq!(rt; told.as_slice(), text.as_bytes());
}

/// The text of a message: its fault, and `Head` if the reply has no body; or the method, the resource and the body.
fn text_of(rt: &(impl Abort + AllocGlobal), message: &Message) -> Vec<u8> {
    let mut text = Vec::new(rt.alloc());
    match message {
        Message::Faulty { fault, is_head } => add_fault(rt, &mut text, *fault, *is_head),
        Message::Whole { request, body } => add_request(rt, &mut text, request, body),
    }
    text
}

/// Adds a word, after a space unless it is the first. An empty word is not added.
fn add(rt: &impl Abort, text: &mut Vec<u8>, word: &[u8]) {
    if word.is_empty() {
        return;
    }
    if !text.is_empty() {
        text.push(b' ').expect(rt, "a space");
    }
    text.extend_from_slice(word).expect(rt, "a word");
}

fn add_fault(rt: &impl Abort, text: &mut Vec<u8>, fault: MessageFault, is_head: bool) {
    add(rt, text, fault_name(fault).as_bytes());
    if let MessageFault::BadMethod(allowed) = fault {
        add(rt, text, allowed_name(allowed).as_bytes());
    }
    if is_head {
        add(rt, text, b"Head");
    }
}

fn add_request(rt: &impl Abort, text: &mut Vec<u8>, request: &HttpRequest, body: &Bytes) {
    add(rt, text, method_name(request.method()).as_bytes());
    add(rt, text, resource_name(request.resource()).as_bytes());
    add(rt, text, last_segment(request.resource()));
    add(rt, text, body.as_slice());
}

fn fault_name(fault: MessageFault) -> &'static str {
    match fault {
        MessageFault::BadHead => "BadHead",
        MessageFault::NoRoute => "NoRoute",
        MessageFault::BadMethod(_) => "BadMethod",
        MessageFault::BadLength => "BadLength",
        MessageFault::NoLength => "NoLength",
        MessageFault::BodyTooLarge => "BodyTooLarge",
        MessageFault::ShortBody => "ShortBody",
        MessageFault::BadBody => "BadBody",
        MessageFault::NotAcceptable => "NotAcceptable",
    }
}

fn allowed_name(allowed: Allowed) -> &'static str {
    match allowed {
        Allowed::Reading => "Reading",
        Allowed::Files => "Files",
        Allowed::Requests => "Requests",
    }
}

fn method_name(method: Method) -> &'static str {
    match method {
        Method::Delete => "DELETE",
        Method::Get => "GET",
        Method::Head => "HEAD",
        Method::Post => "POST",
        Method::Put => "PUT",
    }
}

fn resource_name(resource: &Resource) -> &'static str {
    match resource {
        Resource::Simple => "Simple",
        Resource::Root => "Root",
        Resource::Project(_) => "Project",
        Resource::ProjectPage(_) => "ProjectPage",
        Resource::File(_) => "File",
        Resource::Name(_) => "Name",
        Resource::Requests => "Requests",
    }
}

/// The segment of the path that a resource keeps.
fn last_segment(resource: &Resource) -> &[u8] {
    match resource {
        Resource::Project(segment) => segment.as_slice(),
        Resource::ProjectPage(segment) => segment.as_slice(),
        Resource::File(segment) => segment.as_slice(),
        Resource::Name(segment) => segment.as_slice(),
        _ => b"",
    }
}
