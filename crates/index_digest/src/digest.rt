//! SHA-256 digests, and bytes that are kept with theirs.
ghost use Rattle.std.specs.Prelude.{◌≡◌, ◌↔◌, Some, IsTrue, IsSome, IfSome, IsOk, IfOk, IfErr};
ghost use Rattle.std.specs.List.{list_all};
ghost use Rattle.index_digest.specs.Digest.{IsDigest, is_digest_text, is_text_digit, read_digest, sha256, text_of};

use hex::FromHex;
use sha2::{Digest, Sha256};
use std::alloc::AllocError;
use std::marker::Model;

// The digits of a digest's text.
const TEXT_DIGITS: &[u8; 16] = b"0123456789abcdef";

/// Whether the byte is a hex digit in lower case.
#[tactic(auto, unfolding(crate::specs::Digest::is_text_digit))]
fn is_text_digit(c: u8) -> bool
    ensures { result ≡ is_text_digit c }
{
    TEXT_DIGITS.contains(&c)
}

fn are_text_digits(text: &[u8]) -> bool
    ensures { result ≡ list_all is_text_digit text.now }
{
    text.iter().all(|&c| is_text_digit(c))
}

/// Whether the text is 64 hex digits in lower case.
fn is_digest_text(text: &[u8]) -> bool
    ensures { result ≡ is_digest_text text.now }
{
    text.len() == 64 && are_text_digits(text)
}

/// A SHA-256 digest. Contracts see the list of its 32 bytes, and `==` compares these.
#[derive(Clone, Copy, Debug, PartialEq, Eq, PartialOrd, Ord, Hash)]
pub struct Digest256 {
    bytes: [u8; 32],
}

impl Model for Digest256 {
    ghost use Rattle.std.specs.Prelude.{ℕ, List};
    ghost use Rattle.index_digest.specs.Digest.{IsDigest};

    ghost Value = { List ℕ };

    ghost view = { λ d. d.bytes };

    ghost invariant = { λ d. IsDigest d.bytes };

    ghost inverse = { λ bytes. record { bytes = bytes } };
}

impl Digest256 {
    /// The digest of `message` (FIPS 180-4, section 6.2).
    #[tactic(auto, unfolding(crate::specs::Digest::sha256))]
    pub fn of(message: &[u8]) -> Digest256
        ensures { result ≡ sha256 message.now }
    {
        Digest256 {
            bytes: Sha256::digest(message),
        }
    }

    /// The digest of these bytes.
    pub fn from_bytes(bytes: [u8; 32]) -> Digest256
        ensures { result ≡ bytes }
    {
        Digest256 { bytes }
    }

    /// The digest's bytes.
    pub fn to_bytes(&self) -> [u8; 32]
        ensures value { result ≡ self.now }
        ensures digest { IsDigest result }
    {
        self.bytes
    }

    /// The digest that `text` is of: 64 digits of `0-9a-f`, two for each byte. Upper case is refused.
    pub fn read_hex(text: &[u8]) -> Option<Digest256>
        ensures value { result ≡ read_digest text.now }
        ensures found { IsSome result ↔ IsTrue (is_digest_text text.now) }
        ensures text { IfSome result (λ digest. text_of digest ≡ text.now) }
    {
        if !is_digest_text(text) {
            return None;
        }
        let bytes = <[u8; 32]>::from_hex(text).unwrap();
        Some(Digest256 { bytes })
    }

    /// Writes the digest's text: 64 digits of `0-9a-f`, two for each byte.
    pub fn hex_into(&self, text: &mut [u8; 64])
        ensures written { text.new ≡ text_of self.now }
        ensures reads_back { read_digest text.new ≡ Some self.now }
    {
        hex::encode_to_slice(&self.bytes, text).unwrap();
    }
}

/// Bytes with their SHA-256 digest. Contracts see the list of the bytes.
#[derive(Debug)]
pub struct Sealed {
    bytes: Vec<u8>,
    digest: Digest256,
}

// By hand: each exit of a function then makes one call to drop (docs/developers/PROOF-COSTS.md).
impl Drop for Sealed {
    fn drop(self) {
        let Sealed {
            bytes: _bytes,
            digest: _digest,
        } = self;
    }
}

impl Model for Sealed {
    ghost use Rattle.std.specs.Prelude.{◌≡◌, ℕ, List};
    ghost use Rattle.index_digest.specs.Digest.{sha256};

    ghost Value = { List ℕ };

    ghost view = { λ s. s.bytes.items };

    ghost invariant = { λ s. s.digest ≡ sha256 s.bytes.items };
}

impl Sealed {
    /// Seals `bytes` if `declared` is their digest.
    ///
    /// # Errors
    ///
    /// The bytes themselves, if it is not.
    pub fn new(bytes: Vec<u8>, declared: Digest256) -> Result<Sealed, Vec<u8>>
        ensures matches { IsOk result ↔ (sha256 bytes.items ≡ declared) }
        ensures kept { IfOk result (λ sealed. sealed ≡ bytes.items) }
        ensures returned { IfErr result (λ returned. returned ≡ bytes) }
    {
        let digest = Digest256::of(bytes.as_slice());
        if digest == declared {
            Ok(Sealed { bytes, digest })
        } else {
            Err(bytes)
        }
    }

    /// The bytes.
    pub fn bytes(&self) -> &[u8]
        ensures { result.now ≡ self.now }
    {
        &self.bytes
    }

    /// The digest of the bytes, which is not computed again.
    pub fn digest(&self) -> Digest256
        ensures { result ≡ sha256 self.now }
    {
        self.digest
    }
}

impl Clone for Sealed {
    ghost is_clone = { λ sealed copy. copy ≡ sealed };

    fn clone(&self) -> Result<Sealed, AllocError> {
        let alloc = *self.bytes.allocator();
        Ok(Sealed {
            bytes: Vec::from_slice(alloc, self.bytes.as_slice())?,
            digest: self.digest,
        })
    }
}
