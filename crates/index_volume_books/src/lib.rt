//! Books whose bodies lie in a volume; the books below have the places of these.
#![tactic(auto)]

mod adopt;
mod bodies;
mod books;
mod counts;
pub mod laws;
mod places;

pub use adopt::{TakeFault, Untaken};
pub use books::VolumeBooks;
pub use places::{Ends, Kept, Places};
