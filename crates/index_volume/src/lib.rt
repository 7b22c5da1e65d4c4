//! A volume: a file to whose end the bytes of files are added, and the places of these.
#![tactic(auto)]

mod place;
mod volume;

pub use place::{Place, place_text, read_place};
pub use volume::{ReadFault, append, read, settle};
