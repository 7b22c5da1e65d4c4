//! The resource and the method of a request: its target by the routes of the index.
ghost use Rattle.std.specs.Prelude.{◌≡◌, ◌<◌, ◌==◌, [], true, Some, IfErr, IfOk, OnOk, IsSome};
ghost use Rattle.std.specs.List.{after_first, before_first};
ghost use Rattle.percent_encoding.specs.Percent.{percent_decode};
ghost use Rattle.index_names.specs.FileName.{read_file_name};
ghost use Rattle.index_message.specs.Messages.{target_by, to_resource};
ghost use Rattle.index_message.specs.Resources.{allowed_of, allows, file_at, has_route, is_file_of_other as is_file_of_other_lem, is_head, is_put, is_reading, method_of, path_of, resource_at as resource_at_lem, resource_of as resource_of_lem, resource_on as resource_on_lem, tail_of as tail_of_lem};
ghost use Rattle.index_message.specs.Routes.{route_of, site_rows};

use crate::fault::{Allowed, MessageFault};
use index_names::{FileName, NameFault};
use index_rules::{Bytes, Fault};
use matchit::{InsertError, Router};
use std::alloc::{AllocError, Global};

/// The resource of a path. Segments are percent-decoded (RFC 3986, section 2.1) and otherwise unchanged.
#[derive(Debug, Drop)]
pub enum Resource {
    /// `/simple`, which redirects to the root page.
    Simple,
    /// `/simple/`, the root page.
    Root,
    /// `/simple/{project}`, which redirects to the project's page.
    Project(Bytes),
    /// `/simple/{project}/`, a project's page.
    ProjectPage(Bytes),
    /// `/files/{project}/{file}`, a file.
    File(Bytes),
    /// `/names/{name}`, the standing of a name.
    Name(Bytes),
    /// `/requests`, which takes requests in JSON.
    Requests,
}

impl Resource {
    /// The methods of the resource.
    pub fn allowed_methods(&self) -> Allowed
        ensures { result ≡ allowed_of self.now }
    {
        match self {
            Resource::File(_) => Allowed::Files,
            Resource::Requests => Allowed::Requests,
            _ => Allowed::Reading,
        }
    }
}

/// The methods that some path has (RFC 9110, section 9.3).
#[derive(Clone, Copy, Debug, PartialEq, Eq, Hash)]
pub enum Method {
    Delete,
    Get,
    Head,
    Post,
    Put,
}

impl Method {
    /// The method of a request line, if it is one of these. The names are in upper case (RFC 9110, section 9.1).
    pub fn from_name(name: &[u8]) -> Option<Method>
        ensures { result ≡ method_of name.now }
    {
        if name == b"DELETE".as_slice() {
            Some(Method::Delete)
        } else if name == b"GET".as_slice() {
            Some(Method::Get)
        } else if name == b"HEAD".as_slice() {
            Some(Method::Head)
        } else if name == b"POST".as_slice() {
            Some(Method::Post)
        } else if name == b"PUT".as_slice() {
            Some(Method::Put)
        } else {
            None
        }
    }

    /// Whether the method only reads: `GET` or `HEAD`.
    pub fn is_reading(self) -> bool
        ensures { result ≡ is_reading self }
    {
        matches!(self, Method::Get | Method::Head)
    }

    /// Whether the reply has no body (RFC 9110, section 9.3.2).
    pub fn is_head(self) -> bool
        ensures { result ≡ is_head self }
    {
        matches!(self, Method::Head)
    }

    /// Whether the method is `PUT`, which uploads.
    pub fn is_put(self) -> bool
        ensures { result ≡ is_put self }
    {
        matches!(self, Method::Put)
    }

    /// Whether the method is one of these.
    pub fn is_in(self, allowed: Allowed) -> bool
        ensures { result ≡ allows allowed self }
    {
        match allowed {
            Allowed::Reading => self.is_reading(),
            Allowed::Files => !matches!(self, Method::Post),
            Allowed::Requests => matches!(self, Method::Post),
        }
    }
}

/// The route of a path.
#[derive(Clone, Copy, Debug, PartialEq, Eq)]
pub enum Route {
    Simple,
    Root,
    Project,
    ProjectPage,
    File,
    Name,
    Requests,
}

/// The routes of the index, built once.
#[derive(Drop)]
pub struct Site {
    router: Router<Route>,
    ghost routes: { router ≡ site_rows },
}

impl Site {
    /// Builds the routes.
    ///
    /// # Errors
    ///
    /// `OutOfMemory`.
    pub fn new(alloc: Global) -> Result<Site, Fault>
        ensures memory { IfErr result (λ fault. fault ≡ Fault.OutOfMemory) }
    {
        match router(alloc) {
            Ok(router) => Ok(Site { router }),
            Err(_) => Err(Fault::OutOfMemory),
        }
    }

    /// The route of a path.
    pub(crate) fn route(&self, path: &str) -> Option<Route>
        ensures { result ≡ route_of path.now }
    {
        match self.router.at(path) {
            Ok(found) => Some(*found.value),
            Err(_) => None,
        }
    }
}

/// A router with the patterns of the index.
fn router(alloc: Global) -> Result<Router<Route>, InsertError>
    ensures { IfOk result (λ router. router ≡ site_rows) }
{
    let mut router = Router::new(alloc);
    add_patterns(&mut router)?;
    Ok(router)
}

/// Adds the patterns of the index to a router.
fn add_patterns(router: &mut Router<Route>) -> Result<(), InsertError>
    requires empty { router.old ≡ [] }
    ensures { OnOk result (router.new ≡ site_rows) }
{
    router.insert("/simple", Route::Simple)?;
    router.insert("/simple/", Route::Root)?;
    router.insert("/simple/{project}", Route::Project)?;
    router.insert("/simple/{project}/", Route::ProjectPage)?;
    router.insert("/files/{project}/{file}", Route::File)?;
    router.insert("/names/{name}", Route::Name)?;
    router.insert("/requests", Route::Requests)?;
    Ok(())
}

/// The resource of a target, with the method of this name. The errors keep the order of the faults.
pub fn resolve_target(
    alloc: Global,
    site: &Site,
    method: &[u8],
    target: &[u8],
) -> Result<Result<(Resource, Method), MessageFault>, AllocError>
    ensures found { IfOk result (λ it. it ≡ target_by method.now (resource_of_lem target.now)) }
    ensures routed { IfErr result (λ _. has_route target.now ≡ true) }
{
    let Some(resource) = resource_of(alloc, site, target)? else {
        return Ok(Err(MessageFault::NoRoute));
    };
    match allowed_method(&resource, method) {
        Ok(method) => Ok(Ok((resource, method))),
        Err(fault) => {
            drop(resource);
            Ok(Err(fault))
        }
    }
}

/// The method of this name, if the resource has it.
fn allowed_method(resource: &Resource, name: &[u8]) -> Result<Method, MessageFault>
    ensures { target_by name.now (Some resource.now) ≡ to_resource resource.now result }
{
    let allowed = resource.allowed_methods();
    match Method::from_name(name) {
        Some(method) if method.is_in(allowed) => Ok(method),
        _ => Err(MessageFault::BadMethod(allowed)),
    }
}

/// The resource of a target.
#[tactic(auto, unfolding(crate::specs::Resources::resource_of))]
fn resource_of(alloc: Global, site: &Site, target: &[u8]) -> Result<Option<Resource>, AllocError>
    ensures found { IfOk result (λ found. found ≡ resource_of_lem target.now) }
    ensures routed { IfErr result (λ _. IsSome (route_of (path_of target.now))) }
{
    let Ok(target) = std::str::from_utf8(target) else {
        return Ok(None);
    };
    resource_at(alloc, site, cut_at(target, '?').0)
}

/// The resource of a path.
fn resource_at(alloc: Global, site: &Site, path: &str) -> Result<Option<Resource>, AllocError>
    ensures found { IfOk result (λ found. found ≡ resource_at_lem path.now) }
    ensures routed { IfErr result (λ _. IsSome (route_of path.now)) }
{
    match site.route(path) {
        Some(route) => resource_on(alloc, route, tail_of(path)),
        None => Ok(None),
    }
}

/// The resource of a route, with the segments behind the path's first word.
fn resource_on(alloc: Global, route: Route, tail: &str) -> Result<Option<Resource>, AllocError>
    ensures { IfOk result (λ found. found ≡ resource_on_lem route tail.now) }
{
    let (first, second) = cut_at(tail, '/');
    Ok(Some(match route {
        Route::Simple => Resource::Simple,
        Route::Root => Resource::Root,
        Route::Project => Resource::Project(percent_decoded(alloc, first)?),
        Route::ProjectPage => Resource::ProjectPage(percent_decoded(alloc, first)?),
        Route::File => return file_of_project(alloc, first, second),
        Route::Name => Resource::Name(percent_decoded(alloc, first)?),
        Route::Requests => Resource::Requests,
    }))
}

/// A file of a project, from the segments of both.
fn file_of_project(alloc: Global, project: &str, file: &str) -> Result<Option<Resource>, AllocError>
    ensures { IfOk result (λ found. found ≡ file_at project.now file.now) }
{
    let project = percent_decoded(alloc, project)?;
    let file = percent_decoded(alloc, file)?;
    if is_file_of_other(alloc, project.as_slice(), file.as_slice())? {
        Ok(None)
    } else {
        Ok(Some(Resource::File(file)))
    }
}

/// Whether these bytes are a file name that spells another project than this.
fn is_file_of_other(alloc: Global, project: &[u8], file: &[u8]) -> Result<bool, AllocError>
    ensures other { IfOk result (λ other. other ≡ is_file_of_other_lem project.now file.now) }
    ensures readable { IfErr result (λ _. IsSome (read_file_name file.now)) }
{
    match FileName::read(alloc, file) {
        Ok(file) => Ok(file.project().text().as_bytes() != project),
        Err(NameFault::OutOfMemory) => Err(AllocError),
        Err(_) => Ok(false),
    }
}

/// A segment with its escapes decoded (RFC 3986, section 2.1).
fn percent_decoded(alloc: Global, segment: &str) -> Result<Bytes, AllocError>
    ensures { IfOk result (λ bytes. bytes ≡ percent_decode segment.now) }
{
    let mut bytes = Vec::new(alloc);
    percent_encoding::percent_decode(segment.as_bytes()).append_to(&mut bytes)?;
    Ok(Bytes::new(bytes))
}

/// The text behind the first word of a path.
fn tail_of(path: &str) -> &str
    ensures { result.now ≡ tail_of_lem path.now }
{
    cut_at(cut_at(path, '/').1, '/').1
}

/// The text before the first such mark and the text behind it, or all of it and nothing if there is no mark.
fn cut_at(text: &str, mark: char) -> (&str, &str)
    requires { mark < 128 }
    ensures before { result.0.now ≡ before_first (λ b. b == mark) text.now }
    ensures after { result.1.now ≡ after_first (λ b. b == mark) text.now }
{
    match text.split_once(mark) {
        Some(parts) => parts,
        None => (text, ""),
    }
}
