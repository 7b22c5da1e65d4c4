//! Books that cache files and pages.
ghost use Rattle.std.specs.Prelude.{◌≡◌, ◌≤◌, ◌<◌, ◌+◌, [], Err, IfOk, IfSome, None, Some};
ghost use Rattle.std.specs.Prelude.{filter, length, option_copied, option_map, true};
ghost use Rattle.std.specs.List.{All};
ghost use Rattle.index_cache.specs.Entries.{AreNewest, IsCachedBody, IsCachedPage, body_bytes, page_bytes};
ghost use Rattle.index_cache.specs.Spared.{spares_body};
ghost use Rattle.std.specs.FinMap.{get};
ghost use Rattle.index_caching.specs.Pages.{project_of_page};
ghost use Rattle.index_rules.specs.Facts.{Sees};
ghost use Rattle.index_rules.specs.Results.{Returns, ReturnsItems};
ghost use Rattle.index_rules.specs.TableRows.{file_rows_in, held_rows_in, name_rows_in};
ghost use Rattle.index_rules.specs.Verdict.{is_held as is_held_lem};
ghost use Rattle.index_rules.specs.Walks.{to_taker};
ghost use Rattle.index_cache.specs.declared.cache.TheConstants.{MOST_BODIES, MOST_PAGES};

use crate::entries::{
    CachedBody, CachedPage, body_bytes, body_of, is_out_of_memory, is_walk_out_of_memory,
    keep_newest, keep_spared, page_of, project_of_page,
};
use index_caching::{CachesAnswers, PageKey};
use index_digest::Sealed;
use index_names::{FileName, NormalName};
use index_pages::Served;
use index_rules::{Books, Change, Fault, FileRow, Keys, NameRow, Taker, View, WalkEnd};
use std::alloc::Global;

/// The most files that are cached.
const MOST_BODIES: usize = 1_024;

/// The most pages that are cached.
const MOST_PAGES: usize = 1_024;

/// Books with a cache of the last files and pages. Every entry is what the tables hold.
#[derive(Drop)]
pub struct Cache<B: Books> {
    books: B,
    bodies: Vec<CachedBody>,
    pages: Vec<CachedPage>,
    /// The size of the cache in bytes.
    most: usize,
    /// The bytes that the entries take, at most `most`.
    used: usize,
    ghost cached_bodies: { B.IsHonest books → All (IsCachedBody (B.tables books)) bodies.items },
    ghost cached_pages: { B.IsHonest books → All (IsCachedPage (B.tables books)) pages.items },
    ghost counted: { body_bytes bodies.items + page_bytes pages.items ≤ used },
    ghost within: { (used ≤ most) × (most < 18446744073709551616) },
    ghost few: { (length bodies.items ≤ MOST_BODIES) × (length pages.items ≤ MOST_PAGES) },
}

impl<B: Books> Cache<B> {
    ghost use Rattle.index_cache.specs.Room.{CachesNothing};
    ghost use Rattle.index_cache.specs.Views.{books_of, cache_limit};

    /// Books over these, with an empty cache of at most `most` bytes. With 0 nothing is cached.
    pub fn new(alloc: Global, books: B, most: usize) -> Cache<B>
        ensures books { books_of result ≡ books }
        ensures most { cache_limit result ≡ most }
    {
        Cache {
            books,
            bodies: Vec::new(alloc),
            pages: Vec::new(alloc),
            most,
            used: 0,
        }
    }

    /// The books below.
    pub fn into_books(self) -> B
        ensures { result ≡ books_of self }
    {
        let Cache {
            books,
            bodies: _bodies,
            pages: _pages,
            most: _,
            used: _,
        } = self;
        books
    }

    /// Empties the cache if a look ran out of memory, so that the next one has it.
    fn forget_if(&mut self, is_out_of_memory: bool)
        ensures books { self.new.books ≡ self.old.books }
        ensures none { is_out_of_memory ≡ true → CachesNothing self.new }
    {
        if is_out_of_memory {
            self.bodies.clear();
            self.pages.clear();
            self.used = 0;
        }
    }

    /// Drops all pages, and the bodies that a change may touch.
    fn forget_touched(&mut self, change: &Change)
        ensures pages { (self.new.books ≡ self.old.books) × (self.new.pages.items ≡ []) }
        ensures spared { self.new.bodies.items
            ≡ filter (spares_body change.now) self.old.bodies.items }
        ensures bytes { self.new.used ≡ body_bytes self.new.bodies.items }
    {
        self.pages.clear();
        keep_spared(&mut self.bodies, change);
        self.used = body_bytes(self.bodies.as_slice());
    }

    /// Makes room for `more` bytes, and for a body and a page. False if the cache is too small for them.
    fn makes_room(&mut self, more: usize) -> bool
        ensures books { self.new.books ≡ self.old.books }
        ensures few { result ≡ true → (length self.new.bodies.items < MOST_BODIES)
            × (length self.new.pages.items < MOST_PAGES) }
        ensures counted { result ≡ true → (body_bytes self.new.bodies.items
            + page_bytes self.new.pages.items) + more ≤ self.new.used }
    {
        if self.most == 0 || more > self.most {
            return false;
        }
        let room = self.most - more;
        if self.used > room || self.bodies.len() >= MOST_BODIES || self.pages.len() >= MOST_PAGES {
            self.forget_oldest(room);
        }
        self.used += more;
        true
    }

    /// Drops all pages, and the oldest bodies until the others are few enough and have at most `room` bytes.
    fn forget_oldest(&mut self, room: usize)
        requires { room ≤ self.old.most }
        ensures books { (self.new.books ≡ self.old.books) × (self.new.most ≡ self.old.most) }
        ensures newest { AreNewest self.old.bodies.items self.new.bodies.items }
        ensures few { (length self.new.bodies.items < MOST_BODIES) × (self.new.pages.items ≡ []) }
        ensures bytes { (self.new.used ≡ body_bytes self.new.bodies.items)
            × (self.new.used ≤ room) }
    {
        self.pages.clear();
        self.used = keep_newest(&mut self.bodies, MOST_BODIES, room);
    }
}

impl<B: Books> Books for Cache<B> {
    ghost use Rattle.index_cache.specs.Room.{LooksOrForgets, WalksOrForgets};

    ghost tables = { λ cache. B.tables cache.books };

    ghost IsHonest = { λ cache. B.IsHonest cache.books };

    ghost IsClean = { λ cache. B.IsClean cache.books };

    ghost may_leave = { λ cache. B.may_leave cache.books };

    ghost failures = { λ cache. B.failures cache.books };

    ghost stores = { λ cache. B.stores cache.books };

    fn failure_count(&self) -> u64 {
        self.books.failure_count()
    }

    fn view(&mut self, alloc: Global, keys: &Keys) -> Result<View, Fault>
        ensures { LooksOrForgets B.Books self.old self.new result
            (λ T found. IfOk found (Sees T keys.now)) }
    {
        let found = self.books.view(alloc, keys);
        self.forget_if(is_out_of_memory(&found));
        found
    }

    fn write(&mut self, alloc: Global, change: Change) -> Result<(), Fault> {
        self.forget_touched(&change);
        self.books.write(alloc, change)
    }

    fn is_held(&mut self, alloc: Global, name: &NormalName) -> Result<bool, Fault>
        ensures { LooksOrForgets B.Books self.old self.new result
            (λ T found. Returns found (is_held_lem (get T.names name.now))) }
    {
        let found = self.books.is_held(alloc, name);
        self.forget_if(is_out_of_memory(&found));
        found
    }

    fn bytes_of(&mut self, alloc: Global, file: &FileName) -> Result<Option<Sealed>, Fault>
        ensures { LooksOrForgets B.Books self.old self.new result
            (λ T found. Returns found (get T.bodies file.now)) }
    {
        let found = self.books.bytes_of(alloc, file);
        self.forget_if(is_out_of_memory(&found));
        found
    }

    fn names(&mut self, alloc: Global) -> Result<Vec<NameRow>, Fault>
        ensures { LooksOrForgets B.Books self.old self.new result
            (λ T found. ReturnsItems found (name_rows_in T)) }
    {
        let found = self.books.names(alloc);
        self.forget_if(is_out_of_memory(&found));
        found
    }

    fn files_of(&mut self, alloc: Global, name: &NormalName) -> Result<Vec<FileRow>, Fault>
        ensures { LooksOrForgets B.Books self.old self.new result
            (λ T found. ReturnsItems found (file_rows_in T name.now)) }
    {
        let found = self.books.files_of(alloc, name);
        self.forget_if(is_out_of_memory(&found));
        found
    }

    fn walk_held<K: Taker<NameRow>>(&mut self, alloc: Global, taker: &mut K) -> Result<(), WalkEnd>
        ensures { WalksOrForgets B.Books self.old self.new held_rows_in
            (to_taker K.takes K.stops taker.old taker.new) result }
    {
        let end = self.books.walk_held(alloc, taker);
        self.forget_if(is_walk_out_of_memory(&end));
        end
    }

    fn walk_files<K: Taker<FileRow>>(
        &mut self,
        alloc: Global,
        name: &NormalName,
        taker: &mut K,
    ) -> Result<(), WalkEnd>
        ensures { WalksOrForgets B.Books self.old self.new (λ T. file_rows_in T name.now)
            (to_taker K.takes K.stops taker.old taker.new) result }
    {
        let end = self.books.walk_files(alloc, name, taker);
        self.forget_if(is_walk_out_of_memory(&end));
        end
    }

    ghost honest_is_clean = { λ cache honest. B.honest_is_clean cache.books honest };

    ghost settled = { λ cache honest T left. B.settled cache.books honest T left };
}

impl<B: Books> CachesAnswers for Cache<B> {
    ghost use Rattle.index_cache.specs.Room.{FindsBody, FindsPage};
    ghost use Rattle.index_cache.specs.Views.{cache_limit};

    ghost cache_size = { λ cache. cache_limit cache };

    fn cache_size(&self) -> usize {
        self.most
    }

    fn cached_body(&self, file: &FileName) -> Option<&Sealed>
        ensures { FindsBody B.Books self.now file.now result }
    {
        match body_of(self.bodies.as_slice(), file) {
            Some(kept) => Some(&kept.body),
            None => None,
        }
    }

    fn cache_body(&mut self, file: FileName, body: Sealed) {
        if !self.makes_room(body.bytes().len()) {
            drop(file);
            drop(body);
            return;
        }
        let _ = self.bodies.push(CachedBody { file, body });
    }

    fn cached_page(&self, page: PageKey<'_>, served: Served) -> Option<&[u8]>
        ensures { FindsPage B.Books self.now (project_of_page page.entry) served result }
    {
        match page_of(self.pages.as_slice(), page, served) {
            Some(kept) => Some(kept.text.as_slice()),
            None => None,
        }
    }

    fn cache_page(&mut self, page: PageKey<'_>, served: Served, mut text: Vec<u8>) {
        text.shrink_to_fit();
        if !self.makes_room(text.capacity()) {
            drop(text);
            return;
        }
        let Ok(project) = project_of_page(page) else {
            drop(text);
            return;
        };
        let _ = self.pages.push(CachedPage {
            project,
            served,
            text,
        });
    }
}
