//! ResultIsRead the keys of a JSON object.
ghost use Rattle.std.specs.Prelude.{◌≡◌, option_map};
ghost use Rattle.serde_json.specs.Find.{get};
ghost use Rattle.serde_json.specs.View.{view};
ghost use Rattle.index_json.specs.Json.{key_count};
ghost use Rattle.index_json.specs.Object.{object_of, whole_object, with_key_read};
ghost use Rattle.index_json.specs.Reading.{FindsAs, ObjectIsReadTo, ResultIsRead, flag as flag_lem, if_whole, number as number_lem, text, texts};

use index_rules::Bytes;
use serde_json::Value;
use std::alloc::{AllocError, Global};

/// Why nothing was read.
#[derive(Clone, Copy, Debug, PartialEq, Eq)]
pub enum Unread {
    /// The object does not have the keys of a request.
    NotARequest,
    OutOfMemory,
}

impl From<AllocError> for Unread {
    ghost use Rattle.index_json.specs.declared.object_reader.Unread.TheVariants.{OutOfMemory};

    ghost from_gives = { λ _ unread. unread ≡ OutOfMemory };

    fn from(_error: AllocError) -> Unread {
        Unread::OutOfMemory
    }
}

/// ResultIsRead the keys of a JSON object, and counts those that are left.
#[derive(Drop)]
pub struct ObjectReader<'v> {
    value: &'v Value,
    left: usize,
}

impl<'v> ObjectReader<'v> {
    /// A reader of this value.
    pub fn of(value: &'v Value) -> ObjectReader<'v>
        ensures { object_of result ≡ whole_object (view value.now) }
    {
        ObjectReader {
            value,
            left: count(value),
        }
    }

    /// The text at a key.
    pub fn text(&mut self, key: &str) -> Result<&'v str, Unread>
        ensures { FindsAs (λ text. text.now) self.old self.new result (text key.now) }
    {
        match self.value_at(key).and_then(Value::as_str) {
            Some(text) => Ok(text),
            None => Err(Unread::NotARequest),
        }
    }

    /// The whole number of 64 bits at a key.
    pub fn number(&mut self, key: &str) -> Result<u64, Unread>
        ensures { FindsAs (λ number. number) self.old self.new result (number_lem key.now) }
    {
        match self.value_at(key).and_then(Value::as_u64) {
            Some(number) => Ok(number),
            None => Err(Unread::NotARequest),
        }
    }

    /// True or false at a key.
    pub fn flag(&mut self, key: &str) -> Result<bool, Unread>
        ensures { FindsAs (λ flag. flag) self.old self.new result (flag_lem key.now) }
    {
        match self.value_at(key).and_then(Value::as_bool) {
            Some(flag) => Ok(flag),
            None => Err(Unread::NotARequest),
        }
    }

    /// A copy of the text at a key.
    pub fn bytes(&mut self, alloc: Global, key: &str) -> Result<Bytes, Unread>
        ensures { ObjectIsReadTo self.old self.new result (text key.now) }
    {
        let text = self.text(key)?;
        Ok(Bytes::copy_of(alloc, text.as_bytes())?)
    }

    /// Copies of the texts at two keys.
    pub fn two_texts(
        &mut self,
        alloc: Global,
        first: &str,
        second: &str,
    ) -> Result<(Bytes, Bytes), Unread>
        ensures { ObjectIsReadTo self.old self.new result (texts first.now second.now) }
    {
        let first = self.bytes(alloc, first)?;
        let second = self.bytes(alloc, second)?;
        Ok((first, second))
    }

    /// The value at a key, which is counted as read.
    fn value_at(&mut self, key: &str) -> Option<&'v Value>
        ensures value { option_map (λ found. view found.now) result
            ≡ get key.now (view self.old.value.now) }
        ensures read { object_of self.new ≡ with_key_read (object_of self.old) }
    {
        self.left = self.left.saturating_sub(1);
        self.value.get(key)
    }

    /// Returns what was read, if no key of the object is left.
    pub fn finish<T: Drop>(&self, read: T) -> Result<T, Unread>
        ensures { ResultIsRead result (if_whole (read, object_of self.now)) }
    {
        if self.left == 0 {
            return Ok(read);
        }
        Err(Unread::NotARequest)
    }
}

/// The number of an object's keys; 0 for any other value.
fn count(value: &Value) -> usize
    ensures { result ≡ key_count (view value.now) }
{
    match value.as_object() {
        Some(members) => members.len(),
        None => 0,
    }
}
