//! Releases: version texts in lower case.
ghost use Rattle.std.specs.Prelude.{◌≡◌, ◌||◌, ◌↔◌, None, Some, IfOk, IsErrOf, IsSome, IsTrue};
ghost use Rattle.std.specs.List.{list_all};
ghost use Rattle.index_names.specs.Faults.{FailsByEither};
ghost use Rattle.index_names.specs.Release.{is_version_byte, is_version_text, named_release, read_release, IsRelease};

use crate::fault::NameFault;
use index_text::{Text, ascii};
use std::alloc::{AllocError, Global};
use std::marker::Model;

/// The most bytes of a version text.
const LONGEST_VERSION: usize = 64;

/// A release of a project: a version text in lower case. Versions are not parsed, so `1.0` and `1.00` are two
/// releases (PEP 440 is left to the installer).
///
/// Contracts see its bytes, and it compares in byte order.
#[derive(Clone, Debug, PartialEq, Eq, PartialOrd, Ord)]
pub struct Release {
    text: Text,
}

// By hand: each exit of a function then makes one call to drop (docs/developers/PROOF-COSTS.md).
impl Drop for Release {
    fn drop(self) {
        let Release { text: _text } = self;
    }
}

impl Model for Release {
    ghost use Rattle.std.specs.Prelude.{List, ℕ};
    ghost use Rattle.index_names.specs.Release.{IsRelease};

    ghost Value = { List ℕ };

    ghost view = { λ release. release.text };

    ghost invariant = { λ release. IsRelease release.text };

    ghost inverse = { λ bytes. record { text = bytes } };
}

impl Release {
    /// The release of a valid version: its text in lower case.
    #[tactic(auto, using(crate::proofs::AsciiLemmas::texts, crate::proofs::ReleaseLaws::releases))]
    pub(crate) fn of(alloc: Global, version: &[u8]) -> Result<Release, AllocError>
        requires { IsTrue (is_version_text version.now) }
        ensures { IfOk result (λ release. release ≡ named_release version.now) }
    {
        let mut text = String::from_str(alloc, ascii(version))?;
        text.make_ascii_lowercase();
        Ok(Release {
            text: Text::new(text),
        })
    }

    /// The version text in lower case.
    pub fn text(&self) -> &str
        ensures text { result.now ≡ self.now }
        ensures release { IsRelease self.now }
    {
        self.text.as_str()
    }
}

/// The release that a version text names: the text in lower case. A version text is 1 to 64 ASCII letters, digits, `.`,
/// `_`, `+` and `!`, beginning and ending with a letter or digit. That is this index's own rule; it allows the versions
/// of PEP 440 with `-` written as `_`, as in PEP 427, "Escaping and Unicode".
///
/// # Errors
///
/// `BadRelease` exactly if the bytes are not a version text, else `OutOfMemory`.
#[tactic(auto, unfolding(crate::specs::Release::read_release))]
pub fn release_key(alloc: Global, bytes: &[u8]) -> Result<Release, NameFault>
    ensures release { IfOk result (λ release. read_release bytes.now ≡ Some release) }
    ensures bad_release { IsErrOf result NameFault.BadRelease ↔ (read_release bytes.now ≡ None) }
    ensures fault { FailsByEither result NameFault.BadRelease NameFault.OutOfMemory }
{
    if !is_version(bytes) {
        return Err(NameFault::BadRelease);
    }
    Ok(Release::of(alloc, bytes)?)
}

/// Whether these bytes are a version text: 1 to 64 ASCII letters, digits, `.`, `_`, `+` and `!`, beginning and ending
/// with a letter or digit (this index's own rule).
#[tactic(auto, unfolding(crate::specs::Release::read_release))]
pub fn is_version(bytes: &[u8]) -> bool
    ensures version { result ≡ is_version_text bytes.now }
    ensures readable { IsTrue result ↔ IsSome (read_release bytes.now) }
{
    1 <= bytes.len()
        && bytes.len() <= LONGEST_VERSION
        && has_version_bytes(bytes)
        && bytes[0].is_ascii_alphanumeric()
        && bytes[bytes.len() - 1].is_ascii_alphanumeric()
}

fn is_version_byte(byte: u8) -> bool
    ensures { result ≡ is_version_byte byte }
{
    byte.is_ascii_alphanumeric() || matches!(byte, b'.' | b'_' | b'+' | b'!')
}

/// Whether each byte is one that versions may have.
fn has_version_bytes(bytes: &[u8]) -> bool
    ensures { result ≡ list_all is_version_byte bytes.now }
{
    bytes.iter().all(|&byte| is_version_byte(byte))
}
