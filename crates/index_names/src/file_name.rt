//! The names of wheels (PEP 427) and source archives (PEP 625).
ghost use Rattle.std.specs.Prelude.{◌≡◌, ◌↔◌, None, Some, IfOk, OnOk, IsErrOf, IsSome, IsTrue, bytes_eq, refl};
ghost use Rattle.std.specs.Ordering.{nat_cmp};
ghost use Rattle.std.specs.Cmp.{partial_equiv_from_equiv};
ghost use Rattle.std.specs.Cmp.Lexicographic.{slice_cmp, nat_list_eq_equiv, nat_list_cmp_total, texts_ties, texts_po};
ghost use Rattle.index_names.specs.Faults.{FailsByEither};
ghost use Rattle.index_names.specs.FileName.{SpellsAsRead, SpellsPart, read_file_name, read_source, project_of, release_of, kind_of};
ghost use Rattle.index_names.specs.Cut.{CutsAtFirstHyphen, CutsAtLastHyphen, IsCutOf};

use crate::fault::NameFault;
use crate::project::{NormalName, is_name};
use crate::release::{Release, is_version};
use crate::wheel::cut_wheel;
use index_text::{Text, ascii};
use std::alloc::{AllocError, Global};
use std::cmp::Ordering;
use std::marker::Model;

/// The most bytes of a file name.
const LONGEST_FILE_NAME: usize = 255;

/// Whether these bytes are the name of a wheel or a source archive, of 1 to 255 bytes.
pub fn is_file_name(bytes: &[u8]) -> bool
    ensures { IsTrue result ↔ IsSome (read_file_name bytes.now) }
{
    cut_of(bytes).is_some()
}

/// The kind of a file.
#[derive(Clone, Copy, Debug, PartialEq, Eq)]
pub enum FileKind {
    /// A built distribution (PEP 427).
    Wheel,
    /// A source archive (PEP 625).
    Source,
}

/// The name of a wheel (PEP 427, "File name convention") or of a source archive (PEP 625, "Specification"), with the
/// project, the release and the kind that it spells.
///
/// Contracts see its bytes. Names that differ only in letter case are two file names; they compare in byte order.
#[derive(Debug)]
pub struct FileName {
    text: Text,
    project: NormalName,
    release: Release,
    kind: FileKind,
}

// By hand: each exit of a function then makes one call to drop (docs/developers/PROOF-COSTS.md).
impl Drop for FileName {
    fn drop(self) {
        let FileName {
            text: _text,
            project: _project,
            release: _release,
            kind: _kind,
        } = self;
    }
}

impl Model for FileName {
    ghost use Rattle.std.specs.Prelude.{List, ℕ};
    ghost use Rattle.index_names.specs.FileName.{IsReadAs};

    ghost Value = { List ℕ };

    ghost view = { λ name. name.text };

    ghost invariant = { λ name. IsReadAs name.text name.project name.release name.kind };
}

impl FileName {
    /// Reads the name of a wheel or a source archive, of 1 to 255 bytes.
    ///
    /// A wheel's name ends with `.whl`. Before that it has five or six parts joined by `-`: the distribution (a project
    /// name without `-`), a version text, a build tag if there are six, then the python, abi and platform tags. A
    /// source archive's name ends with `.tar.gz`. Before that it has a project name, a `-` and a version text.
    ///
    /// # Errors
    ///
    /// `BadFileName` exactly if the bytes are not such a name, else `OutOfMemory`.
    pub fn read(alloc: Global, bytes: &[u8]) -> Result<FileName, NameFault>
        ensures text { IfOk result (λ name. name ≡ bytes.now) }
        ensures read { OnOk result (IsSome (read_file_name bytes.now)) }
        ensures spells { OnOk result (SpellsAsRead bytes.now) }
        ensures bad_file_name { IsErrOf result NameFault.BadFileName
            ↔ (read_file_name bytes.now ≡ None) }
        ensures fault { FailsByEither result NameFault.BadFileName NameFault.OutOfMemory }
    {
        let Some(cut) = cut_of(bytes) else {
            return Err(NameFault::BadFileName);
        };
        Ok(FileName {
            text: Text::new(String::from_str(alloc, ascii(bytes))?),
            project: NormalName::of(alloc, cut.name)?,
            release: Release::of(alloc, cut.version)?,
            kind: cut.kind,
        })
    }

    /// The bytes that were read.
    pub fn text(&self) -> &str
        ensures text { result.now ≡ self.now }
        ensures file_name { IsSome (read_file_name self.now) }
    {
        self.text.as_str()
    }

    /// The project that the file belongs to.
    pub fn project(&self) -> &NormalName
        ensures project { result.now ≡ project_of self.now }
        ensures spelled { SpellsPart (λ spelled. spelled.project) self.now result.now }
    {
        &self.project
    }

    /// The release that the file belongs to.
    pub fn release(&self) -> &Release
        ensures release { result.now ≡ release_of self.now }
        ensures spelled { SpellsPart (λ spelled. spelled.release) self.now result.now }
    {
        &self.release
    }

    /// Whether the file is a wheel or a source archive.
    pub fn kind(&self) -> FileKind
        ensures kind { result ≡ kind_of self.now }
        ensures spelled { SpellsPart (λ spelled. spelled.kind) self.now result }
    {
        self.kind
    }
}

impl Clone for FileName {
    ghost is_clone = { λ name copy. copy ≡ name };

    fn clone(&self) -> Result<FileName, AllocError> {
        Ok(FileName {
            text: self.text.clone()?,
            project: self.project.clone()?,
            release: self.release.clone()?,
            kind: self.kind,
        })
    }
}

impl PartialEq for FileName {
    ghost eq = { bytes_eq };

    ghost laws = { partial_equiv_from_equiv nat_list_eq_equiv };

    fn eq(&self, other: &FileName) -> bool {
        self.text == other.text
    }
}

impl Eq for FileName {
    ghost laws = { nat_list_eq_equiv };
}

impl PartialOrd for FileName {
    ghost partial_cmp = { λ a b. Some (slice_cmp nat_cmp a b) };

    ghost laws = { texts_po };

    fn partial_cmp(&self, other: &FileName) -> Option<Ordering> {
        Some(self.cmp(other))
    }
}

impl Ord for FileName {
    ghost cmp = { slice_cmp nat_cmp };

    ghost total = { nat_list_cmp_total };

    ghost matches_partial_cmp = { λ a b. refl };

    ghost matches_eq = { texts_ties };

    fn cmp(&self, other: &FileName) -> Ordering {
        self.text.cmp(&other.text)
    }
}

/// The parts of a file name that name its project and its release.
#[derive(Clone, Copy)]
pub struct Cut<'a> {
    pub name: &'a [u8],
    pub version: &'a [u8],
    pub kind: FileKind,
}

/// The parts of a file name, or `None` if the bytes are not a valid one.
#[tactic(auto, unfolding(crate::specs::FileName::read_file_name))]
pub fn cut_of(bytes: &[u8]) -> Option<Cut<'_>>
    ensures { IsCutOf result (read_file_name bytes.now) }
{
    if bytes.len() > LONGEST_FILE_NAME {
        return None;
    }
    if let Some(stem) = bytes.strip_suffix(b".whl") {
        return cut_wheel(stem);
    }
    if let Some(stem) = bytes.strip_suffix(b".tar.gz") {
        return cut_source(stem);
    }
    None
}

/// The name and the version of a source archive's stem, parted by its last hyphen, if both are valid.
#[tactic(auto, using(crate::proofs::HyphenLemmas::before_last_without))]
fn cut_source(stem: &[u8]) -> Option<Cut<'_>>
    ensures { IsCutOf result (read_source stem.now) }
{
    let (name, version) = split_at_last_hyphen(stem)?;
    if is_name(name) && is_version(version) {
        Some(Cut {
            name,
            version,
            kind: FileKind::Source,
        })
    } else {
        None
    }
}

/// The parts before and after the first hyphen of a text.
pub fn split_at_first_hyphen(text: &[u8]) -> Option<(&[u8], &[u8])>
    ensures { CutsAtFirstHyphen text.now result }
{
    let hyphen = text.iter().position(|&byte| byte == b'-')?;
    Some((&text[..hyphen], &text[hyphen + 1..]))
}

/// The parts before and after the last hyphen of a text.
pub fn split_at_last_hyphen(text: &[u8]) -> Option<(&[u8], &[u8])>
    ensures { CutsAtLastHyphen text.now result }
{
    let hyphen = text.iter().rposition(|&byte| byte == b'-')?;
    Some((&text[..hyphen], &text[hyphen + 1..]))
}
