//! Project names and their normal form (PEP 503, "Normalized Names").
ghost use Rattle.std.specs.Prelude.{◌≡◌, ◌||◌, ◌++◌, ◌↔◌, None, Some, IfOk, OnOk, IsErrOf, IsSome, IsTrue, string_bytes};
ghost use Rattle.std.specs.List.{list_all};
ghost use Rattle.index_names.specs.Project.{is_separator, is_project_name, normal_form, read_name, IsNormalName};
ghost use Rattle.std.specs.Char.{is_ascii_alphanumeric};
ghost use Rattle.index_names.specs.Faults.{FailsByEither};
ghost use Rattle.index_names.specs.Steps.{added};

use crate::fault::NameFault;
use index_text::Text;
use std::alloc::{AllocError, Global};
use std::marker::Model;

/// The most bytes of a project name.
const LONGEST_NAME: usize = 128;

/// The normal form of a project's name (PEP 503, "Normalized Names"); spellings with one normal form are one name.
///
/// Contracts see its bytes, and it compares in byte order.
#[derive(Clone, Debug, PartialEq, Eq, PartialOrd, Ord)]
pub struct NormalName {
    text: Text,
}

// By hand: each exit of a function then makes one call to drop (docs/developers/PROOF-COSTS.md).
impl Drop for NormalName {
    fn drop(self) {
        let NormalName { text: _text } = self;
    }
}

impl Model for NormalName {
    ghost use Rattle.std.specs.Prelude.{List, ℕ};
    ghost use Rattle.index_names.specs.Project.{IsNormalName};

    ghost Value = { List ℕ };

    ghost view = { λ name. name.text };

    ghost invariant = { λ name. IsNormalName name.text };

    ghost inverse = { λ bytes. record { text = bytes } };
}

impl NormalName {
    /// The normal form of a valid project name.
    #[tactic(auto, using(crate::proofs::NormalFormLaws::normal_names))]
    pub(crate) fn of(alloc: Global, name: &[u8]) -> Result<NormalName, AllocError>
        requires { IsTrue (is_project_name name.now) }
        ensures { IfOk result (λ normal. normal ≡ normal_form name.now) }
    {
        Ok(NormalName {
            text: Text::new(normalize(alloc, name)?),
        })
    }

    /// The normal form: letters and digits in lower case, and single hyphens.
    pub fn text(&self) -> &str
        ensures text { result.now ≡ self.now }
        ensures normal { IsNormalName self.now }
    {
        self.text.as_str()
    }
}

/// Whether these bytes are a project name: 1 to 128 ASCII letters, digits, `.`, `_` and `-`, beginning and ending with
/// a letter or digit (PEP 508, "Names"; the limit of 128 is this index's own).
#[tactic(auto, unfolding(crate::specs::Project::read_name))]
pub fn is_name(bytes: &[u8]) -> bool
    ensures name { result ≡ is_project_name bytes.now }
    ensures readable { IsTrue result ↔ IsSome (read_name bytes.now) }
{
    1 <= bytes.len()
        && bytes.len() <= LONGEST_NAME
        && has_name_bytes(bytes)
        && bytes[0].is_ascii_alphanumeric()
        && bytes[bytes.len() - 1].is_ascii_alphanumeric()
}

/// The normal form of a project name (PEP 503, "Normalized Names"): in lower case, with one `-` for each run of `-`,
/// `_` and `.`.
///
/// # Errors
///
/// `BadName` exactly if the bytes are not a project name, else `OutOfMemory`.
#[tactic(auto, unfolding(crate::specs::Project::read_name))]
pub fn normal(alloc: Global, bytes: &[u8]) -> Result<NormalName, NameFault>
    ensures normal { IfOk result (λ name. read_name bytes.now ≡ Some name) }
    ensures bad_name { IsErrOf result NameFault.BadName ↔ (read_name bytes.now ≡ None) }
    ensures fault { FailsByEither result NameFault.BadName NameFault.OutOfMemory }
{
    if !is_name(bytes) {
        return Err(NameFault::BadName);
    }
    Ok(NormalName::of(alloc, bytes)?)
}

fn is_separator(byte: u8) -> bool
    ensures { result ≡ is_separator byte }
{
    matches!(byte, b'-' | b'_' | b'.')
}

/// Whether each byte is a letter, a digit or a separator.
fn has_name_bytes(bytes: &[u8]) -> bool
    ensures { result ≡ list_all (λ c. is_ascii_alphanumeric c || is_separator c) bytes.now }
{
    bytes
        .iter()
        .all(|&byte| byte.is_ascii_alphanumeric() || is_separator(byte))
}

/// The name in lower case, with one hyphen in place of each run of separators (PEP 503).
#[tactic(auto, using(crate::proofs::NormalForm::steps))]
fn normalize(alloc: Global, bytes: &[u8]) -> Result<String, AllocError>
    requires { IsTrue (is_project_name bytes.now) }
    ensures { IfOk result (λ normal. string_bytes normal ≡ normal_form bytes.now) }
{
    let mut normal = String::new(alloc);
    let mut is_apart = false;
    for byte in bytes {
        push(&mut normal, is_apart, *byte)?;
        is_apart = !byte.is_ascii_alphanumeric();
    }
    Ok(normal)
}

// Adds a letter or digit, behind a hyphen if there are separators before it.
fn push(normal: &mut String, is_apart: bool, byte: u8) -> Result<(), AllocError>
    ensures { OnOk result
        (string_bytes normal.new ≡ string_bytes normal.old ++ added is_apart byte) }
{
    if byte.is_ascii_alphanumeric() {
        if is_apart {
            normal.push('-')?;
        }
        normal.push(char::from(byte.to_ascii_lowercase()))?;
    }
    Ok(())
}
