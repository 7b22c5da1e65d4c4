//! Places in a volume, as texts of 16 bytes.
ghost use Rattle.std.specs.Prelude.{◌≡◌, ◌↔◌, IfOk, IfSome, IsSome, length};
ghost use Rattle.index_volume.specs.Places.{place_at, place_length, place_text, place_size};

use std::alloc::{AllocError, Global};

/// How many bytes the text of a place has.
const PLACE_LENGTH: usize = 16;

/// Where bytes lie in a volume.
#[derive(Clone, Copy, Debug, PartialEq, Eq)]
pub struct Place {
    /// The offset of the first byte.
    pub at: usize,
    /// How many bytes lie there.
    pub size: usize,
}

/// The text of a place: its offset and its size, in eight bytes each, the highest first.
///
/// # Errors
///
/// `AllocError` if memory runs out.
pub fn place_text(alloc: Global, place: Place) -> Result<Vec<u8>, AllocError>
    ensures { IfOk result (λ text. text.items ≡ place_text place.at place.size) }
{
    let mut text = Vec::from_slice(alloc, &(place.at as u64).to_be_bytes())?;
    text.extend_from_slice(&(place.size as u64).to_be_bytes())?;
    Ok(text)
}

/// The place in a text, or `None` if the text has another length than a place.
pub fn read_place(text: &[u8]) -> Option<Place>
    ensures length { IsSome result ↔ (length text.now ≡ place_length) }
    ensures at { IfSome result (λ place. place.at ≡ place_at text.now) }
    ensures size { IfSome result (λ place. place.size ≡ place_size text.now) }
{
    if text.len() != PLACE_LENGTH {
        return None;
    }
    let at = u64::from_be_bytes([
        text[0], text[1], text[2], text[3], text[4], text[5], text[6], text[7],
    ]);
    let size = u64::from_be_bytes([
        text[8], text[9], text[10], text[11], text[12], text[13], text[14], text[15],
    ]);
    Some(Place {
        at: at as usize,
        size: size as usize,
    })
}
