//! GET and HEAD: the reply is found first, and then sent. Neither changes a table.
ghost use Rattle.std.specs.Prelude.{◌≡◌, ◌≢◌, Err, Ok, IfErr, IfOk, IfSome, IsSome, true, false, bytes_eq, is_some};
ghost use Rattle.index_names.specs.FileName.{read_file_name};
ghost use Rattle.index_names.specs.Project.{read_name};
ghost use Rattle.index_rules.specs.Tables.{Tables};
ghost use Rattle.index_desk.specs.Looks.{LooksAt};
ghost use Rattle.index_desk.specs.Rules.{by_tables};
ghost use Rattle.index_http.specs.Exchanges.{IsAccepted, RedirectsToProject, ShowsFile, ShowsName, ShowsPath, ShowsProject, ShowsResource, ShowsSpelling};
ghost use Rattle.index_http.specs.Replies.{reply_of};
ghost use Rattle.index_http.specs.Shown.{LeadsTo, ReplyShowsFound, can_be_read, is_page_to_show, is_reply, look_for, reply_of_shown};
ghost use Rattle.index_http.specs.Shows.{LookShows, is_page, look_at_no_page, look_of};
ghost use Rattle.index_http.specs.Steps.{at_desk, to_sink};

use crate::connection::IoEnd;
use crate::page_replies::show_page;
use crate::reply::{
    Reply, file_reply, json_reply, message_reply, redirect_to_project, redirect_to_root,
    refusal_reply,
};
use crate::send::{send_fault, send_reply};
use index_caching::{CachesAnswers, PageKey, cache_body, cached_body};
use index_desk::Desk;
use index_io::Sink;
use index_json::standing_text;
use index_message::{Allowed, HttpRequest, MessageFault, Resource};
use index_names::{FileName, NameFault, NormalName, normal};
use index_pages::Served;
use index_rules::{Books, Bytes, Fault, Refusal};
use std::alloc::{AllocError, Global};

/// What a request is to be shown. Pages and files are fetched only when they are sent: the books lend cached ones, and
/// a long page is never in memory as a whole.
#[derive(Drop)]
pub enum ToShow {
    /// The root page, in a type.
    Root(Served),
    /// The page of a project, in a type.
    Project(NormalName, Served),
    /// A file.
    File(FileName),
    /// A reply that was found.
    Found(Shown),
}

/// A reply that owns its text.
#[derive(Drop)]
pub enum Shown {
    /// The reply to a malformed message.
    Faulty(MessageFault),
    /// The reply to a refused request.
    Refused(Refusal),
    /// A redirect to the root page.
    ToRoot,
    /// A redirect to a project's page.
    ToProject(NormalName),
    /// The standing of a name, as JSON.
    Standing(String),
}

impl Shown {
    /// The reply itself.
    pub fn reply(&self) -> Reply<'_>
        ensures { reply_of result ≡ reply_of_shown self.now }
    {
        match self {
            Shown::Faulty(fault) => message_reply(*fault),
            Shown::Refused(refusal) => refusal_reply(*refusal),
            Shown::ToRoot => redirect_to_root(),
            Shown::ToProject(name) => redirect_to_project(name),
            Shown::Standing(text) => json_reply(text.as_bytes()),
        }
    }
}

/// Replies to a request that only reads.
pub fn show<K: Sink, B: CachesAnswers>(
    alloc: Global,
    sink: &mut K,
    desk: &mut Desk<B>,
    request: &HttpRequest,
) -> Result<(), IoEnd>
    ensures shown { LookShows (look_of request.now)
        (λ T. ShowsResource by_tables T request.now.fields request.now.resource)
        (at_desk B.Books desk.old desk.new) (to_sink K.Sink sink.old sink.new) result }
    // A resource whose name is not valid gets its reply, and never ends as out of memory.
    ensures readable { result ≡ Err IoEnd.OutOfMemory → can_be_read request.now.resource ≡ true }
{
    let is_head = request.method().is_head();
    match to_show(alloc, desk, request, request.resource()) {
        Ok(what) => send_shown(alloc, sink, desk, is_head, what),
        Err(fault) => send_fault(sink, is_head, fault),
    }
}

/// Sends what is to be shown.
fn send_shown<K: Sink, B: CachesAnswers>(
    alloc: Global,
    sink: &mut K,
    desk: &mut Desk<B>,
    is_head: bool,
    what: ToShow,
) -> Result<(), IoEnd>
    ensures shown { LookShows (look_for is_head what) (λ T. ReplyShowsFound T what)
        (at_desk B.Books desk.old desk.new) (to_sink K.Sink sink.old sink.new) result }
    ensures memory { result ≡ Err IoEnd.OutOfMemory → is_reply what ≡ false }
{
    match what {
        ToShow::Root(served) => show_page(alloc, sink, desk, is_head, PageKey::Root, served),
        ToShow::Project(name, served) => {
            show_page(alloc, sink, desk, is_head, PageKey::Project(&name), served)
        }
        ToShow::File(file) => show_file(alloc, sink, desk, is_head, file),
        ToShow::Found(shown) => send_reply(sink, is_head, shown.reply()),
    }
}

/// Sends the bytes of a file.
fn show_file<K: Sink, B: CachesAnswers>(
    alloc: Global,
    sink: &mut K,
    desk: &mut Desk<B>,
    is_head: bool,
    file: FileName,
) -> Result<(), IoEnd>
    ensures { LookShows (look_at_no_page is_head) (λ T. ShowsFile by_tables T file true)
        (at_desk B.Books desk.old desk.new) (to_sink K.Sink sink.old sink.new) result }
{
    if let Some(body) = cached_body(desk, &file) {
        return send_reply(sink, is_head, file_reply(body.bytes()));
    }
    match desk.body(alloc, &file) {
        Ok(Some(body)) => {
            let sent = send_reply(sink, is_head, file_reply(body.bytes()));
            cache_body(desk, file, body);
            sent
        }
        Ok(None) => send_reply(sink, is_head, refusal_reply(Refusal::NoFile)),
        Err(fault) => send_fault(sink, is_head, fault),
    }
}

/// What a resource shows.
fn to_show<B: Books>(
    alloc: Global,
    desk: &mut Desk<B>,
    request: &HttpRequest,
    resource: &Resource,
) -> Result<ToShow, Fault>
    ensures shows { LooksAt B.Books desk.old desk.new result
        (λ T what. LeadsTo T what (ShowsResource by_tables T request.now.fields resource.now)) }
    ensures page { IfOk result (λ it. is_page_to_show it ≡ true → is_page resource.now ≡ true) }
    ensures found { IfOk result (λ it. can_be_read resource.now ≡ false → is_reply it ≡ true) }
    ensures readable { IfErr result (λ _. can_be_read resource.now ≡ true) }
{
    match resource {
        Resource::Simple => Ok(ToShow::Found(Shown::ToRoot)),
        Resource::Root => Ok(root_to_show(alloc, request)?),
        Resource::Project(given) => Ok(ToShow::Found(redirect_of(alloc, given)?)),
        Resource::ProjectPage(given) => page_at(alloc, desk, request, given),
        Resource::File(given) => Ok(file_to_show(alloc, given)?),
        Resource::Name(given) => Ok(ToShow::Found(standing_of(alloc, desk, given)?)),
        Resource::Requests => Ok(ToShow::Found(Shown::Faulty(MessageFault::BadMethod(
            Allowed::Requests,
        )))),
    }
}

/// The root page, or `NotAcceptable` if none of its types can be chosen.
fn root_to_show(alloc: Global, request: &HttpRequest) -> Result<ToShow, AllocError>
    ensures { IfOk result (λ what. (T : Tables) →
        LeadsTo T what (ShowsResource by_tables T request.now.fields Resource.Root)) }
{
    match accepted_type(alloc, request)? {
        Some(served) => Ok(ToShow::Root(served)),
        None => Ok(ToShow::Found(Shown::Faulty(MessageFault::NotAcceptable))),
    }
}

/// The type that the `Accept` fields choose (PEP 691).
fn accepted_type(alloc: Global, request: &HttpRequest) -> Result<Option<Served>, AllocError>
    ensures { IfOk result (λ chosen. IsAccepted request.now.fields chosen) }
{
    let values = request.values(alloc, b"accept")?;
    Ok(Served::choose(values.as_slice()))
}

/// A redirect to a project's page, or the reply to a name that is not valid.
fn redirect_of(alloc: Global, given: &Bytes) -> Result<Shown, AllocError>
    ensures shown { IfOk result (λ shown.
        RedirectsToProject (read_name given.now) (reply_of_shown shown)) }
    ensures readable { IfErr result (λ _. IsSome (read_name given.now)) }
{
    match name_of(alloc, given)? {
        Some(name) => Ok(Shown::ToProject(name)),
        None => Ok(Shown::Refused(Refusal::NoProject)),
    }
}

/// A project's page, or a redirect to it if the name is given in another spelling.
fn page_at<B: Books>(
    alloc: Global,
    desk: &mut Desk<B>,
    request: &HttpRequest,
    given: &Bytes,
) -> Result<ToShow, Fault>
    ensures shows { LooksAt B.Books desk.old desk.new result (λ T what.
        LeadsTo T what (ShowsPath by_tables T request.now.fields given.now (read_name given.now))) }
    ensures found { IfOk result (λ it. is_some (read_name given.now) ≡ false → is_reply it ≡ true) }
    ensures readable { IfErr result (λ _. IsSome (read_name given.now)) }
{
    let Some(name) = name_of(alloc, given)? else {
        return Ok(ToShow::Found(Shown::Refused(Refusal::NoProject)));
    };
    if name.text().as_bytes() == given.as_slice() {
        page_of(alloc, desk, request, name)
    } else {
        Ok(ToShow::Found(Shown::ToProject(name)))
    }
}

/// A project's page, whose name is given in its normal form.
fn page_of<B: Books>(
    alloc: Global,
    desk: &mut Desk<B>,
    request: &HttpRequest,
    name: NormalName,
) -> Result<ToShow, Fault>
    ensures { LooksAt B.Books desk.old desk.new result
        (λ T what. LeadsTo T what (ShowsSpelling by_tables T request.now.fields name true)) }
{
    match accepted_type(alloc, request)? {
        Some(served) => Ok(ToShow::Project(name, served)),
        None => Ok(ToShow::Found(no_page_of(alloc, desk, &name)?)),
    }
}

/// The reply if there is no page of a project, or none in a type that can be chosen.
fn no_page_of<B: Books>(
    alloc: Global,
    desk: &mut Desk<B>,
    name: &NormalName,
) -> Result<Shown, Fault>
    ensures { LooksAt B.Books desk.old desk.new result
        (λ T shown. ShowsProject by_tables T name.now None (reply_of_shown shown)) }
{
    if desk.is_held(alloc, name)? {
        Ok(Shown::Faulty(MessageFault::NotAcceptable))
    } else {
        Ok(Shown::Refused(Refusal::NoProject))
    }
}

/// A file, or the reply to a file name that is not valid.
fn file_to_show(alloc: Global, given: &Bytes) -> Result<ToShow, AllocError>
    ensures shows { IfOk result (λ it. (T : Tables) → LeadsTo T it
        (ShowsFile by_tables T given.now (is_some (read_file_name given.now)))) }
    ensures found { IfOk result (λ it.
        is_some (read_file_name given.now) ≡ false → is_reply it ≡ true) }
    ensures page { IfOk result (λ it. is_page_to_show it ≡ false) }
    ensures readable { IfErr result (λ _. IsSome (read_file_name given.now)) }
{
    match FileName::read(alloc, given.as_slice()) {
        Ok(file) => Ok(ToShow::File(file)),
        Err(NameFault::OutOfMemory) => Err(AllocError),
        Err(_) => Ok(ToShow::Found(Shown::Refused(Refusal::NoFile))),
    }
}

/// The standing of a name, or the reply to a name that is not valid.
fn standing_of<B: Books>(alloc: Global, desk: &mut Desk<B>, given: &Bytes) -> Result<Shown, Fault>
    ensures shows { LooksAt B.Books desk.old desk.new result
        (λ T shown. ShowsName by_tables T (read_name given.now) (reply_of_shown shown)) }
    ensures readable { IfErr result (λ _. IsSome (read_name given.now)) }
{
    let Some(name) = name_of(alloc, given)? else {
        return Ok(Shown::Refused(Refusal::BadName));
    };
    let standing = desk.standing(alloc, &name)?;
    Ok(Shown::Standing(standing_text(alloc, &standing)?))
}

/// The normal form of a name, or `None` if these bytes are not a valid project name.
fn name_of(alloc: Global, given: &Bytes) -> Result<Option<NormalName>, AllocError>
    ensures name { IfOk result (λ name. name ≡ read_name given.now) }
    ensures readable { IfErr result (λ _. IsSome (read_name given.now)) }
{
    match normal(alloc, given.as_slice()) {
        Ok(name) => Ok(Some(name)),
        Err(NameFault::OutOfMemory) => Err(AllocError),
        Err(_) => Ok(None),
    }
}
