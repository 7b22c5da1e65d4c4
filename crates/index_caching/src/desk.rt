//! The cache of a desk's books.
ghost use Rattle.std.specs.Prelude.{◌≡◌, IfSome, Some};
ghost use Rattle.std.specs.FinMap.{get};
ghost use Rattle.index_desk.specs.Looks.{LookFindsNothing};
ghost use Rattle.index_caching.specs.Pages.{page_in};

use crate::{CachesAnswers, PageKey};
use index_desk::Desk;
use index_digest::Sealed;
use index_names::FileName;
use index_pages::Served;

/// Returns the size of the cache in bytes, 0 if nothing is cached.
pub fn cache_size<B: CachesAnswers>(desk: &Desk<B>) -> usize
    ensures { result ≡ B.cache_size desk.now }
{
    desk.books().cache_size()
}

/// The cached bytes of a file, or `None` if it is not cached.
pub fn cached_body<'a, B: CachesAnswers>(desk: &'a Desk<B>, file: &FileName) -> Option<&'a Sealed>
    ensures { B.IsHonest desk.now → IfSome result (λ body.
        get (B.tables desk.now).bodies file.now ≡ Some body.now) }
{
    desk.books().cached_body(file)
}

/// Caches the bytes of a file if there is room. It changes no table.
pub fn cache_body<B: CachesAnswers>(desk: &mut Desk<B>, file: FileName, body: Sealed)
    requires { B.IsHonest desk.old → get (B.tables desk.old).bodies file ≡ Some body }
    ensures { LookFindsNothing B.Books desk.old desk.new }
{
    desk.books_mut().cache_body(file, body);
}

/// The cached text of a page in a type, or `None` if it is not cached.
pub fn cached_page<'a, B: CachesAnswers>(
    desk: &'a Desk<B>,
    page: PageKey<'_>,
    served: Served,
) -> Option<&'a [u8]>
    ensures { B.IsHonest desk.now → IfSome result (λ text.
        page_in (B.tables desk.now) served page.entry ≡ Some text.now) }
{
    desk.books().cached_page(page, served)
}

/// Caches the text of a page in a type if there is room. It changes no table.
pub fn cache_page<B: CachesAnswers>(
    desk: &mut Desk<B>,
    page: PageKey<'_>,
    served: Served,
    text: Vec<u8>,
)
    requires { B.IsHonest desk.old → page_in (B.tables desk.old) served page ≡ Some text.items }
    ensures { LookFindsNothing B.Books desk.old desk.new }
{
    desk.books_mut().cache_page(page, served, text);
}
