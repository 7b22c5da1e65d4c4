//! Rows of the tables: as lists, and by walks that pass them to a taker one at a time.
ghost use Rattle.std.specs.Prelude.{◌≡◌, option_map};
ghost use Rattle.index_rules.specs.TableRows.{is_held_row as is_held_row_lem};
ghost use Rattle.index_rules.specs.Walks.{Walks};
ghost use Rattle.index_desk.specs.Looks.{HandsOver, LooksBy};
ghost use Rattle.index_desk.specs.Projects.{WalksProject};

use super::Desk;
use index_names::NormalName;
use index_rules::{Books, Fault, FileRow, NameRecord, NameRow, Taker, WalkEnd};
use std::alloc::Global;

impl<B: Books> Desk<B> {
    /// Whether a name is held. It changes no table.
    ///
    /// # Errors
    ///
    /// `OutOfMemory` if memory runs out, and `Store` if the books fail.
    pub fn is_held(&mut self, alloc: Global, name: &NormalName) -> Result<bool, Fault>
        // Each history for which the tables stood says the same.
        ensures { LooksBy B.Books self.old self.new result
            (λ S rules s held. held ≡ rules.is_held s name.now) }
    {
        self.books.is_held(alloc, name)
    }

    /// The held names with their records, in byte order. It changes no table.
    ///
    /// # Errors
    ///
    /// `OutOfMemory` if memory runs out, and `Store` if the books fail.
    pub fn root_rows(&mut self, alloc: Global) -> Result<Vec<NameRow>, Fault>
        // The names are those that are held after a history for which the tables stood.
        ensures { LooksBy B.Books self.old self.new result
            (λ S rules s rows. rules.HeldRows s rows.items) }
    {
        let mut rows = self.books.names(alloc)?;
        rows.retain(|row| is_held_row(row));
        Ok(rows)
    }

    /// The undeleted files of a held name with their records, in byte order, or `None` if the name is not held. It
    /// changes no table.
    ///
    /// # Errors
    ///
    /// `OutOfMemory` if memory runs out, and `Store` if the books fail.
    pub fn project_rows(
        &mut self,
        alloc: Global,
        name: &NormalName,
    ) -> Result<Option<Vec<FileRow>>, Fault>
        // The rows are those of the name's files after a history for which the tables stood.
        ensures { LooksBy B.Books self.old self.new result
            (λ S rules s found. rules.ProjectRows s name.now
            (option_map (λ rows. rows.items) found)) }
    {
        if !self.books.is_held(alloc, name)? {
            return Ok(None);
        }
        let rows = self.books.files_of(alloc, name)?;
        Ok(Some(rows))
    }

    /// Passes the rows of `root_rows` to a taker one at a time, until it wants no more. It changes no table.
    ///
    /// # Errors
    ///
    /// `Stopped` if the taker wants no more, `OutOfMemory` if memory runs out, and `Store` if the books fail.
    pub fn walk_root<K: Taker<NameRow>>(
        &mut self,
        alloc: Global,
        taker: &mut K,
    ) -> Result<(), WalkEnd>
        ensures { HandsOver B.Books self.old self.new result (λ S rules s. rules.HeldRows s)
            (λ rows. Walks K.takes K.stops rows taker.old taker.new result) }
    {
        self.books.walk_held(alloc, taker)
    }

    /// Passes the rows of `project_rows` to a taker one at a time, until it wants no more. Returns `false` if the name
    /// is not held, and then no row was passed. It changes no table.
    ///
    /// # Errors
    ///
    /// `Stopped` if the taker wants no more, `OutOfMemory` if memory runs out, and `Store` if the books fail.
    pub fn walk_project<K: Taker<FileRow>>(
        &mut self,
        alloc: Global,
        name: &NormalName,
        taker: &mut K,
    ) -> Result<bool, WalkEnd>
        ensures { HandsOver B.Books self.old self.new result
            (λ S rules s. rules.ProjectRows s name.now)
            (λ rows. WalksProject K.takes K.stops rows taker.old taker.new result) }
    {
        if !self.books.is_held(alloc, name)? {
            return Ok(false);
        }
        self.books.walk_files(alloc, name, taker)?;
        Ok(true)
    }
}

/// Whether the name of a row is held.
fn is_held_row(row: &NameRow) -> bool
    ensures { result ≡ is_held_row_lem row.now }
{
    matches!(row.record, NameRecord::Held(_))
}
