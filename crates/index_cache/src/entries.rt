//! The entries of the cache: files and pages.
ghost use Rattle.std.specs.Prelude.{◌≡◌, ◌↔◌, ◌≤◌, ◌<◌, ◌+◌, Err, IfOk, IfSome, IsTrue, None};
ghost use Rattle.std.specs.Prelude.{drop, filter, length, option_copied, vec_len};
ghost use Rattle.index_caching.specs.Pages.{project_of_page};
ghost use Rattle.index_cache.specs.Entries.{AreLeft, AreNewest, HasNoPage, IsBodyAmong, IsPageAmong, body_bytes, cached_of};
ghost use Rattle.index_cache.specs.Spared.{spares_file, spares_body};

use index_caching::PageKey;
use index_digest::Sealed;
use index_names::{FileName, NormalName};
use index_pages::Served;
use index_rules::{Change, Fault, WalkEnd};
use std::alloc::AllocError;

/// A cached file.
#[derive(Drop)]
pub(crate) struct CachedBody {
    pub(crate) file: FileName,
    pub(crate) body: Sealed,
}

/// The cached bytes of a file: the first entry, if there are several.
pub(crate) fn body_of<'a>(bodies: &'a [CachedBody], file: &FileName) -> Option<&'a CachedBody>
    ensures there { IfSome result (IsBodyAmong bodies.now file.now) }
    ensures found { option_copied result ≡ cached_of file.now bodies.now }
{
    bodies.iter().find(|kept| kept.file == *file)
}

/// Whether a change leaves the bytes of a file as they are. A prohibition may touch any file.
fn spares_file(change: &Change, file: &FileName) -> bool
    ensures { result ≡ spares_file change.now file.now }
{
    match change {
        Change::Upload { file: changed, .. }
        | Change::Delete { file: changed, .. }
        | Change::BanFile { file: changed, .. } => *file != *changed,
        Change::Prohibit { .. } => false,
        _ => true,
    }
}

/// Drops the bodies that a change may touch.
pub(crate) fn keep_spared(bodies: &mut Vec<CachedBody>, change: &Change)
    ensures spared { bodies.new.items ≡ filter (spares_body change.now) bodies.old.items }
    ensures fewer { (body_bytes bodies.new.items ≤ body_bytes bodies.old.items)
        × (length bodies.new.items ≤ length bodies.old.items) }
{
    bodies.retain(|kept| spares_file(change, &kept.file));
}

/// The number of bytes of all these bodies.
pub(crate) fn body_bytes(bodies: &[CachedBody]) -> usize
    requires { body_bytes bodies.now < 18446744073709551616 }
    ensures { result ≡ body_bytes bodies.now }
{
    bodies.iter().map(|kept| kept.body.bytes().len()).sum()
}

/// Keeps the newest bodies: fewer than `most_kept`, of at most `room` bytes. Returns their number of bytes.
pub(crate) fn keep_newest(bodies: &mut Vec<CachedBody>, most_kept: usize, room: usize) -> usize
    requires some { 0 < most_kept }
    requires counted { body_bytes bodies.old.items < 18446744073709551616 }
    ensures kept { AreLeft bodies.old.items bodies.new.items }
    ensures newest { AreNewest bodies.old.items bodies.new.items }
    ensures bytes { (result ≡ body_bytes bodies.new.items) × (result ≤ room) }
    ensures few { length bodies.new.items < most_kept }
{
    let mut kept = body_bytes(bodies.as_slice());
    while kept > room || bodies.len() >= most_kept {
        kept -= remove_first(bodies);
    }
    kept
}

/// Drops the oldest body, and returns its number of bytes.
fn remove_first(bodies: &mut Vec<CachedBody>) -> usize
    requires { 0 < vec_len bodies.old }
    ensures kept { AreLeft bodies.old.items bodies.new.items }
    ensures oldest { bodies.new.items ≡ drop 1 bodies.old.items }
    ensures bytes { body_bytes bodies.old.items ≡ result + body_bytes bodies.new.items }
    ensures fewer { length bodies.new.items + 1 ≡ length bodies.old.items }
{
    let first = bodies.remove(0);
    let length = first.body.bytes().len();
    drop(first);
    length
}

/// Whether a look ran out of memory.
pub(crate) fn is_out_of_memory<T>(found: &Result<T, Fault>) -> bool
    ensures { IsTrue result ↔ (found.now ≡ Err Fault.OutOfMemory) }
{
    matches!(found, Err(Fault::OutOfMemory))
}

/// Whether a walk ran out of memory.
pub(crate) fn is_walk_out_of_memory(end: &Result<(), WalkEnd>) -> bool
    ensures { IsTrue result ↔ (end.now ≡ Err WalkEnd.OutOfMemory) }
{
    matches!(end, Err(WalkEnd::OutOfMemory))
}

/// A cached page: a project's, or the root page if `project` is `None`.
#[derive(Drop)]
pub(crate) struct CachedPage {
    pub(crate) project: Option<NormalName>,
    pub(crate) served: Served,
    pub(crate) text: Vec<u8>,
}

/// The project of a page, or `None` for the root page.
pub(crate) fn project_of_page(page: PageKey<'_>) -> Result<Option<NormalName>, AllocError>
    ensures { IfOk result (λ project. project ≡ project_of_page page.entry) }
{
    match page {
        PageKey::Root => Ok(None),
        PageKey::Project(name) => Ok(Some(name.clone()?)),
    }
}

/// The cached page of a project, or the root page, in a type.
pub(crate) fn page_of<'a>(
    pages: &'a [CachedPage],
    page: PageKey<'_>,
    served: Served,
) -> Option<&'a CachedPage>
    ensures there { IfSome result (IsPageAmong pages.now (project_of_page page.entry) served) }
    ensures none { result ≡ None → HasNoPage pages.now (project_of_page page.entry) served }
{
    pages
        .iter()
        .find(|kept| kept.served == served && is_of(&kept.project, page))
}

/// Whether an entry is of this page.
fn is_of(project: &Option<NormalName>, page: PageKey<'_>) -> bool
    ensures { IsTrue result ↔ (project.now ≡ project_of_page page.entry) }
{
    match (project, page) {
        (None, PageKey::Root) => true,
        (Some(project), PageKey::Project(name)) => project == name,
        _ => false,
    }
}
