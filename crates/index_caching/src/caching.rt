//! Books that may cache files and pages.
ghost use Rattle.std.specs.Prelude.{◌≡◌, ℕ, IfSome, Some};
ghost use Rattle.std.specs.FinMap.{get};
ghost use Rattle.index_desk.specs.Looks.{LookFindsNothing};
ghost use Rattle.index_caching.specs.Pages.{page_in};

use index_digest::Sealed;
use index_names::{FileName, NormalName};
use index_pages::Served;
use index_rules::Books;

/// A page of the index.
#[derive(Clone, Copy)]
pub enum PageKey<'a> {
    /// The root page: the held names.
    Root,
    /// The page of a project.
    Project(&'a NormalName),
}

/// Books that may cache files and pages. What they cache is what the tables hold.
pub trait CachesAnswers: Books {
    /// The size of the cache in bytes.
    ghost cache_size: { Self → ℕ };

    /// Returns the size of the cache in bytes, 0 if nothing is cached.
    fn cache_size(&self) -> usize
        ensures { result ≡ cache_size self.now };

    /// The cached bytes of a file, or `None` if it is not cached.
    fn cached_body(&self, file: &FileName) -> Option<&Sealed>
        ensures { Self.IsHonest self.now → IfSome result (λ body.
            get (Self.tables self.now).bodies file.now ≡ Some body.now) };

    /// Caches the bytes of a file if there is room. It changes no table.
    fn cache_body(&mut self, file: FileName, body: Sealed)
        requires { Self.IsHonest self.old → get (Self.tables self.old).bodies file ≡ Some body }
        ensures { LookFindsNothing Self.Books self.old self.new };

    /// The cached text of a page in a type, or `None` if it is not cached.
    fn cached_page(&self, page: PageKey<'_>, served: Served) -> Option<&[u8]>
        ensures { Self.IsHonest self.now → IfSome result (λ text.
            page_in (Self.tables self.now) served page.entry ≡ Some text.now) };

    /// Caches the text of a page in a type if there is room. It changes no table.
    fn cache_page(&mut self, page: PageKey<'_>, served: Served, text: Vec<u8>)
        requires { Self.IsHonest self.old →
            page_in (Self.tables self.old) served page ≡ Some text.items }
        ensures { LookFindsNothing Self.Books self.old self.new };
}
