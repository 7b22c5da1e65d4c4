//! The rows of the tables: whole lists of them, and walks that pass them to a taker one at a time.
ghost use Rattle.std.specs.Prelude.{◌≡◌};
ghost use Rattle.index_rules.specs.Sound.{is_undeleted_of as is_undeleted_of_lem};
ghost use Rattle.index_rules.specs.TableRows.{file_row_in, file_rows_in, name_row as name_row_lem, name_rows_in};
ghost use Rattle.index_rules.specs.Results.{Returns, ReturnsItems};
ghost use Rattle.index_rules.specs.Walks.{to_taker};
ghost use Rattle.index_plain.specs.Plain.{Hands, HandsFiles, HandsNames, plain_tables};
ghost use Rattle.index_plain.specs.RowsOf.{rows_of_file, rows_of_name};

use crate::pairs;
use crate::plain::PlainBooks;
use index_names::{FileName, NormalName};
use index_rules::{FileRecord, FileRow, NameRecord, NameRow, Taker, WalkEnd};
use std::alloc::{AllocError, Global};

impl PlainBooks {
    /// The held names and the prohibited ones, in byte order.
    pub(crate) fn name_rows(&self, alloc: Global) -> Result<Vec<NameRow>, AllocError>
        ensures { ReturnsItems result (name_rows_in (plain_tables self.now)) }
    {
        let mut rows = Vec::new(alloc);
        for (name, known) in self.names.iter() {
            rows.push(name_row(name, known)?)?;
        }
        Ok(rows)
    }

    /// The undeleted files of a name, in byte order. It looks at all files.
    pub(crate) fn file_rows(
        &self,
        alloc: Global,
        name: &NormalName,
    ) -> Result<Vec<FileRow>, AllocError>
        ensures { ReturnsItems result (file_rows_in (plain_tables self.now) name.now) }
    {
        let mut rows = Vec::new(alloc);
        for (file, known) in self.files.iter() {
            if is_undeleted_of(known, name) {
                rows.push(self.file_row(name, file, known)?)?;
            }
        }
        Ok(rows)
    }

    /// Passes the held names to a taker, in byte order.
    pub(crate) fn hand_names<K: Taker<NameRow>>(&self, taker: &mut K) -> Result<(), WalkEnd>
        ensures { HandsNames self.now (to_taker K.takes K.stops taker.old taker.new) result }
    {
        for (name, known) in self.names.iter() {
            hand_name(taker, name, known)?;
        }
        Ok(())
    }

    /// Passes the undeleted files of a name to a taker, in byte order. It looks at all files.
    pub(crate) fn hand_files<K: Taker<FileRow>>(
        &self,
        name: &NormalName,
        taker: &mut K,
    ) -> Result<(), WalkEnd>
        ensures { HandsFiles self.now name.now
            (to_taker K.takes K.stops taker.old taker.new) result }
    {
        for (file, entry) in self.files.iter() {
            self.hand_file(name, file, entry, taker)?;
        }
        Ok(())
    }

    /// Passes the row of a file to a taker, if it is an undeleted one of the name.
    fn hand_file<K: Taker<FileRow>>(
        &self,
        name: &NormalName,
        file: &FileName,
        known: &FileRecord,
        taker: &mut K,
    ) -> Result<(), WalkEnd>
        ensures { let rows = rows_of_file (plain_tables self.now) name.now (file.now, known.now) in
            Hands rows (to_taker K.takes K.stops taker.old taker.new) result }
    {
        if !is_undeleted_of(known, name) {
            return Ok(());
        }
        let row = self.file_row(name, file, known)?;
        if taker.take(&row) {
            Ok(())
        } else {
            Err(WalkEnd::Stopped)
        }
    }

    /// A file's row, yanked if its release of the name is.
    fn file_row(
        &self,
        name: &NormalName,
        file: &FileName,
        known: &FileRecord,
    ) -> Result<FileRow, AllocError>
        ensures { let T = plain_tables self.now in
            Returns result (file_row_in T name.now (file.now, known.now)) }
    {
        let release = known.release.clone()?;
        let requires_python = known.requires_python.clone()?;
        let yanked = pairs::find(&self.yanks, name, &known.release).cloned()?;
        let file = file.clone()?;
        Ok(FileRow {
            file,
            release,
            digest: known.digest,
            size: known.size,
            requires_python,
            yanked,
        })
    }
}

/// A copy of a name and of its record.
fn name_row(name: &NormalName, known: &NameRecord) -> Result<NameRow, AllocError>
    ensures { Returns result (name_row_lem (name.now, known.now)) }
{
    let record = known.clone()?;
    let name = name.clone()?;
    Ok(NameRow { name, record })
}

/// Whether a file is an undeleted one of the name.
fn is_undeleted_of(known: &FileRecord, name: &NormalName) -> bool
    ensures { result ≡ is_undeleted_of_lem name.now known.now }
{
    known.is_undeleted && *name == known.project
}

/// Passes the row of a name to a taker, if the name is held.
fn hand_name<K: Taker<NameRow>>(
    taker: &mut K,
    name: &NormalName,
    known: &NameRecord,
) -> Result<(), WalkEnd>
    ensures { Hands (rows_of_name name.now known.now)
        (to_taker K.takes K.stops taker.old taker.new) result }
{
    if let NameRecord::Prohibited = known {
        return Ok(());
    }
    let row = name_row(name, known)?;
    if taker.take(&row) {
        Ok(())
    } else {
        Err(WalkEnd::Stopped)
    }
}
