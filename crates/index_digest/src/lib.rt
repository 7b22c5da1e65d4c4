//! SHA-256 digests (FIPS 180-4): their values, their texts, and bytes with their digest.
#![tactic(auto)]

mod digest;

pub use digest::{Digest256, Sealed};
