//! Columns of a row, each read as a value of one type. If a column holds no such value, that is `Fault::Store`.
ghost use Rattle.std.specs.Prelude.{◌≡◌, ◌↔◌, pos, [], IsTrue, IsUtf8, ⊤, if◌then◌else◌};
ghost use Rattle.sqlite_value.specs.declared.value.Value.TheVariants.{Int as IntValue, Text as TextValue, Blob as BlobValue};
ghost use Rattle.sqlite_value.specs.Order.{column};
ghost use Rattle.index_names.specs.Project.{IsNormalName};
ghost use Rattle.index_names.specs.Release.{IsRelease};
ghost use Rattle.index_rules.specs.Users.{IsUserId};
ghost use Rattle.index_sql_schema.specs.RecordRows.{IsBlobOf, IsDigestBlob, IsFlag, IsNull, IsNumber, IsNumberIfAny, IsTextIfAny, IsTextOf};
ghost use Rattle.index_sql_reads.specs.Reads.{CellIsRead, IsNullOr, OwnedIsRead, TextCellIsRead, ValueIsRead};
ghost use Rattle.index_sql_reads.specs.Reads.{SpellsFile, SpellsName, SpellsRelease};

use index_digest::Digest256;
use index_names::{FileName, NameFault, NormalName, Release, normal, release_key};
use index_rules::{Fault, UserFault, UserId};
use index_text::Text;
use sqlite::Row;
use sqlite::types::ValueRef;
use std::alloc::Global;

/// The bytes of the text in a column.
fn text_bytes(row: &Row, at: usize) -> Result<&[u8], Fault>
    ensures { CellIsRead result (IsTextOf (λ _. ⊤)) (column row.now at) (λ it. TextValue it.now) }
{
    match row.get_ref(at) {
        Ok(ValueRef::Text(bytes)) => Ok(bytes),
        _ => Err(Fault::Store),
    }
}

/// The bytes of the blob in a column.
pub(crate) fn blob(row: &Row, at: usize) -> Result<&[u8], Fault>
    ensures { CellIsRead result (IsBlobOf (λ _. ⊤)) (column row.now at) (λ it. BlobValue it.now) }
{
    match row.get_ref(at) {
        Ok(ValueRef::Blob(bytes)) => Ok(bytes),
        _ => Err(Fault::Store),
    }
}

/// The whole number in a column, which isn't negative.
pub(crate) fn number(row: &Row, at: usize) -> Result<u64, Fault>
    ensures { CellIsRead result IsNumber (column row.now at) (λ it. IntValue (pos it)) }
{
    match row.get_ref(at) {
        Ok(ValueRef::Int(number)) => match u64::try_from(number) {
            Ok(number) => Ok(number),
            Err(_) => Err(Fault::Store),
        },
        _ => Err(Fault::Store),
    }
}

/// The whole number in a column, or `None` for NULL.
pub(crate) fn number_if_any(row: &Row, at: usize) -> Result<Option<u64>, Fault>
    ensures { ValueIsRead result (IsNumberIfAny row.now at)
        (IsNullOr (λ number. IntValue (pos number)) (column row.now at)) }
{
    match row.get_ref(at) {
        Ok(ValueRef::Null) => Ok(None),
        _ => Ok(Some(number(row, at)?)),
    }
}

/// The flag in a column: 0 for no, or 1 for yes.
pub(crate) fn flag(row: &Row, at: usize) -> Result<bool, Fault>
    ensures { CellIsRead result IsFlag (column row.now at)
        (λ it. IntValue (pos (if it then 1 else 0))) }
{
    match number(row, at)? {
        0 => Ok(false),
        1 => Ok(true),
        _ => Err(Fault::Store),
    }
}

/// The SHA-256 digest in a column: a blob of 32 bytes.
pub(crate) fn digest(row: &Row, at: usize) -> Result<Digest256, Fault>
    ensures { CellIsRead result IsDigestBlob (column row.now at) BlobValue }
{
    let blob = blob(row, at)?;
    if blob.len() != 32 {
        return Err(Fault::Store);
    }
    let mut bytes = [0; 32];
    bytes.copy_from_slice(blob);
    Ok(Digest256::from_bytes(bytes))
}

/// The text in a column.
pub(crate) fn text(alloc: Global, row: &Row, at: usize) -> Result<Text, Fault>
    ensures { TextCellIsRead IsUtf8 IsUtf8 (column row.now at) result }
{
    match str::from_utf8(text_bytes(row, at)?) {
        Ok(text) => Ok(Text::new(String::from_str(alloc, text)?)),
        Err(_) => Err(Fault::Store),
    }
}

/// The text in a column, or `None` for NULL.
pub(crate) fn text_if_any(alloc: Global, row: &Row, at: usize) -> Result<Option<Text>, Fault>
    ensures { OwnedIsRead result (IsTextIfAny row.now at) (IsNullOr TextValue (column row.now at)) }
{
    match row.get_ref(at) {
        Ok(ValueRef::Null) => Ok(None),
        _ => Ok(Some(text(alloc, row, at)?)),
    }
}

/// The user id in a column.
#[tactic(auto, unfolding(index_rules::specs::Users::read_user))]
pub(crate) fn user(alloc: Global, row: &Row, at: usize) -> Result<UserId, Fault>
    ensures { TextCellIsRead IsUserId IsUserId (column row.now at) result }
{
    match UserId::read(alloc, text_bytes(row, at)?) {
        Ok(user) => Ok(user),
        Err(UserFault::OutOfMemory) => Err(Fault::OutOfMemory),
        Err(UserFault::BadUser) => Err(Fault::Store),
    }
}

/// The name in a column, in its normal form. Any other spelling is invalid.
pub(crate) fn name(alloc: Global, row: &Row, at: usize) -> Result<NormalName, Fault>
    ensures { TextCellIsRead IsNormalName SpellsName (column row.now at) result }
{
    let bytes = text_bytes(row, at)?;
    match normal(alloc, bytes) {
        Ok(name) if name.text().as_bytes() == bytes => Ok(name),
        Err(NameFault::OutOfMemory) => Err(Fault::OutOfMemory),
        _ => Err(Fault::Store),
    }
}

/// The release in a column, in lower case. Any other spelling is invalid.
pub(crate) fn release(alloc: Global, row: &Row, at: usize) -> Result<Release, Fault>
    ensures { TextCellIsRead IsRelease SpellsRelease (column row.now at) result }
{
    let bytes = text_bytes(row, at)?;
    match release_key(alloc, bytes) {
        Ok(release) if release.text().as_bytes() == bytes => Ok(release),
        Err(NameFault::OutOfMemory) => Err(Fault::OutOfMemory),
        _ => Err(Fault::Store),
    }
}

/// The name of a wheel or a source archive in a column.
pub(crate) fn file_name(alloc: Global, row: &Row, at: usize) -> Result<FileName, Fault>
    ensures { TextCellIsRead SpellsFile SpellsFile (column row.now at) result }
{
    match FileName::read(alloc, text_bytes(row, at)?) {
        Ok(file) => Ok(file),
        Err(NameFault::OutOfMemory) => Err(Fault::OutOfMemory),
        Err(_) => Err(Fault::Store),
    }
}

/// Whether the column holds 0.
pub(crate) fn is_zero(row: &Row, at: usize) -> bool
    ensures { IsTrue result ↔ (column row.now at ≡ IntValue (pos 0)) }
{
    matches!(row.get_ref(at), Ok(ValueRef::Int(0)))
}

/// Whether the column holds the empty text.
pub(crate) fn is_empty_text(row: &Row, at: usize) -> bool
    ensures { IsTrue result ↔ (column row.now at ≡ TextValue []) }
{
    match row.get_ref(at) {
        Ok(ValueRef::Text(bytes)) => bytes.is_empty(),
        _ => false,
    }
}

/// Whether the column holds NULL.
pub(crate) fn is_null(row: &Row, at: usize) -> bool
    ensures { IsTrue result ↔ IsNull row.now at }
{
    matches!(row.get_ref(at), Ok(ValueRef::Null))
}
