//! The files of a name: their records and their bodies.
ghost use Rattle.std.specs.Prelude.{◌≡◌};
ghost use Rattle.index_rules.specs.Effect.{as_deleted_of, is_file_of};
ghost use Rattle.index_rules.specs.Facts.{is_undeleted_of_release};
ghost use Rattle.index_rules.specs.Maps.{change_values};
ghost use Rattle.index_plain.specs.NameFiles.{has_undeleted_of, without_bodies_of};
ghost use Rattle.index_plain.specs.Trees.{table_of};

use crate::table;
use index_digest::Sealed;
use index_names::{FileName, NormalName, Release};
use index_rules::FileRecord;
use std::collections::BTreeMap;

/// Whether a release has an undeleted file. It looks at all files.
pub fn has_undeleted(
    files: &BTreeMap<FileName, FileRecord>,
    name: &NormalName,
    release: &Release,
) -> bool
    ensures { result ≡ has_undeleted_of name.now release.now (table_of files.now) }
{
    files
        .iter()
        .any(|(_, known)| is_undeleted(known, name, release))
}

/// Whether the file is an undeleted one of this release of the name.
fn is_undeleted(known: &FileRecord, name: &NormalName, release: &Release) -> bool
    ensures { result ≡ is_undeleted_of_release name.now release.now known.now }
{
    known.is_undeleted && *name == known.project && *release == known.release
}

/// Marks the files of a name as deleted. It looks at all files.
pub fn mark_deleted(files: &mut BTreeMap<FileName, FileRecord>, name: &NormalName)
    ensures { table_of files.new ≡ change_values (as_deleted_of name.now) (table_of files.old) }
{
    files.retain(|_, known| {
        if *name == known.project {
            known.is_undeleted = false;
        }
        true
    });
}

/// Drops the bodies of the files whose records have the name. It looks at all bodies.
pub fn drop_bodies(
    bodies: &mut BTreeMap<FileName, Sealed>,
    files: &BTreeMap<FileName, FileRecord>,
    name: &NormalName,
)
    ensures { table_of bodies.new
        ≡ without_bodies_of name.now (table_of files.now) (table_of bodies.old) }
{
    bodies.retain(|file, _| !is_of(files, file, name));
}

/// Whether a file has a record with the name.
fn is_of(files: &BTreeMap<FileName, FileRecord>, file: &FileName, name: &NormalName) -> bool
    ensures { result ≡ is_file_of (table_of files.now) name.now file.now }
{
    table::find(files, file).is_some_and(|known| *name == known.project)
}
