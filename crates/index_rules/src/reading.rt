//! What the bytes of a request are parsed as.
ghost use Rattle.std.specs.Prelude.{◌≡◌, ◌↔◌, IfOk, IsSome, IsTrue, None, Some, if◌then◌else◌};
ghost use Rattle.std.specs.Char.{is_control};
ghost use Rattle.std.specs.List.{list_any};
ghost use Rattle.std.specs.Str.{chars};
ghost use Rattle.index_names.specs.Project.{read_name};
ghost use Rattle.index_names.specs.Release.{read_release};
ghost use Rattle.index_rules.specs.Requests.{read_file};
ghost use Rattle.index_rules.specs.Results.{ReturnsRead};
ghost use Rattle.index_rules.specs.Users.{read_user};
ghost use Rattle.index_rules.specs.Texts.{is_evidence as is_evidence_lem, is_text as is_text_lem, read_token};

use crate::bytes::Bytes;
use crate::user::{UserFault, UserId, is_user_id};
use index_digest::Digest256;
use index_names::{
    FileName, NameFault, NormalName, Release, is_file_name, is_version, normal, release_key,
};
use index_text::{Text, ascii};
use std::alloc::{AllocError, Global};

/// The most bytes of a text.
const LONGEST_TEXT: usize = 512;

/// The normal form of a name, or `None` if the bytes are not a valid name.
pub fn readable_name(alloc: Global, name: &Bytes) -> Result<Option<NormalName>, AllocError>
    ensures { ReturnsRead (read_name name.now) result }
{
    match normal(alloc, name.as_slice()) {
        Ok(key) => Ok(Some(key)),
        Err(NameFault::OutOfMemory) => Err(AllocError),
        Err(_) => Ok(None),
    }
}

/// A user id, or `None` if the bytes are not a valid one.
pub fn readable_user(alloc: Global, user: &Bytes) -> Result<Option<UserId>, AllocError>
    ensures { ReturnsRead (read_user user.now) result }
{
    match UserId::read(alloc, user.as_slice()) {
        Ok(key) => Ok(Some(key)),
        Err(UserFault::OutOfMemory) => Err(AllocError),
        Err(UserFault::BadUser) => Ok(None),
    }
}

/// The release of a version, or `None` if the bytes are not a valid version.
pub fn readable_release(alloc: Global, release: &Bytes) -> Result<Option<Release>, AllocError>
    ensures { ReturnsRead (read_release release.now) result }
{
    match release_key(alloc, release.as_slice()) {
        Ok(key) => Ok(Some(key)),
        Err(NameFault::OutOfMemory) => Err(AllocError),
        Err(_) => Ok(None),
    }
}

/// A file name, or `None` if the bytes are not a valid one.
#[tactic(auto, unfolding(crate::specs::Requests::read_file))]
pub fn readable_file(alloc: Global, file: &Bytes) -> Result<Option<FileName>, AllocError>
    ensures { ReturnsRead (read_file file.now) result }
{
    match FileName::read(alloc, file.as_slice()) {
        Ok(key) => Ok(Some(key)),
        Err(NameFault::OutOfMemory) => Err(AllocError),
        Err(_) => Ok(None),
    }
}

/// The digest of a token, or `None` if the bytes are not 64 digits of `0-9a-f`, or are the digest of the empty text.
#[tactic(auto, unfolding(crate::specs::Texts::read_token))]
pub fn read_token(text: &[u8]) -> Option<Digest256>
    ensures { result ≡ read_token text.now }
{
    let token = Digest256::read_hex(text)?;
    if token == Digest256::of(b"") {
        None
    } else {
        Some(token)
    }
}

/// Whether these bytes are a valid project name.
pub fn is_name(name: &Bytes) -> bool
    ensures { IsTrue result ↔ IsSome (read_name name.now) }
{
    index_names::is_name(name.as_slice())
}

/// The normal form of a project name.
pub fn to_name(alloc: Global, name: &Bytes) -> Result<NormalName, AllocError>
    requires { IsSome (read_name name.now) }
    ensures { IfOk result (λ key. read_name name.now ≡ Some key) }
{
    match normal(alloc, name.as_slice()) {
        Ok(key) => Ok(key),
        Err(NameFault::OutOfMemory) => Err(AllocError),
        // By `requires` the bytes are valid.
        Err(_) => unreachable!(),
    }
}

/// A project name as it was spelled.
pub fn to_shown(alloc: Global, name: &Bytes) -> Result<Text, AllocError>
    requires { IsSome (read_name name.now) }
    ensures { IfOk result (λ shown. shown ≡ name.now) }
{
    Ok(Text::new(String::from_str(alloc, ascii(name.as_slice()))?))
}

/// Whether these bytes are a valid user id.
#[tactic(auto, unfolding(crate::specs::Users::read_user))]
pub fn is_user(user: &Bytes) -> bool
    ensures { read_user user.now ≡ (if result then Some user.now else None) }
{
    is_user_id(user.as_slice())
}

/// The user id that bytes are.
pub fn to_user(alloc: Global, user: &Bytes) -> Result<UserId, AllocError>
    requires { read_user user.now ≡ Some user.now }
    ensures { IfOk result (λ key. key ≡ user.now) }
{
    match UserId::read(alloc, user.as_slice()) {
        Ok(key) => Ok(key),
        Err(UserFault::OutOfMemory) => Err(AllocError),
        // By `requires` the bytes are valid.
        Err(UserFault::BadUser) => unreachable!(),
    }
}

/// Whether these bytes are a valid version.
pub fn is_release(release: &Bytes) -> bool
    ensures { IsTrue result ↔ IsSome (read_release release.now) }
{
    is_version(release.as_slice())
}

/// The release of a version.
pub fn to_release(alloc: Global, release: &Bytes) -> Result<Release, AllocError>
    requires { IsSome (read_release release.now) }
    ensures { IfOk result (λ key. read_release release.now ≡ Some key) }
{
    match release_key(alloc, release.as_slice()) {
        Ok(key) => Ok(key),
        Err(NameFault::OutOfMemory) => Err(AllocError),
        // By `requires` the bytes are valid.
        Err(_) => unreachable!(),
    }
}

/// Whether these bytes are a valid file name.
#[tactic(auto, unfolding(crate::specs::Requests::read_file))]
pub fn is_file(file: &Bytes) -> bool
    ensures { IsTrue result ↔ IsSome (read_file file.now) }
{
    is_file_name(file.as_slice())
}

/// The file name that bytes are.
#[tactic(auto, unfolding(crate::specs::Requests::read_file))]
pub fn to_file(alloc: Global, file: &Bytes) -> Result<FileName, AllocError>
    requires { IsSome (read_file file.now) }
    ensures { IfOk result (λ key. key ≡ file.now) }
{
    match FileName::read(alloc, file.as_slice()) {
        Ok(key) => Ok(key),
        Err(NameFault::OutOfMemory) => Err(AllocError),
        // By `requires` the bytes are valid.
        Err(_) => unreachable!(),
    }
}

/// Whether these bytes are a valid text: 0 to 512 bytes of UTF-8 without the code points 0 to 31 and 127 to 159.
pub fn is_text(bytes: &Bytes) -> bool
    ensures { result ≡ is_text_lem bytes.now }
{
    match str::from_utf8(bytes.as_slice()) {
        Ok(text) => is_kept_text(text),
        Err(_) => false,
    }
}

/// Whether the text is short enough and has no control character.
fn is_kept_text(text: &str) -> bool
    ensures { result ≡ is_text_lem text.now }
{
    text.len() <= LONGEST_TEXT && !has_control(text)
}

/// The text that bytes are.
pub fn to_text(alloc: Global, text: &Bytes) -> Result<Text, AllocError>
    requires { IsTrue (is_text_lem text.now) }
    ensures { IfOk result (λ kept. kept ≡ text.now) }
{
    match str::from_utf8(text.as_slice()) {
        Ok(text) => Ok(Text::new(String::from_str(alloc, text)?)),
        // By `requires` the bytes are UTF-8.
        Err(_) => unreachable!(),
    }
}

/// Whether these bytes are a valid text of a case: a valid text of one byte or more.
pub fn is_evidence(text: &Bytes) -> bool
    ensures { result ≡ is_evidence_lem text.now }
{
    !text.as_slice().is_empty() && is_text(text)
}

fn has_control(text: &str) -> bool
    ensures { result ≡ list_any is_control (chars text.now) }
{
    text.chars().any(char::is_control)
}
