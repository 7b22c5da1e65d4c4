//! Texts in their original spelling, and ASCII bytes as texts.
#![tactic(auto)]

mod text;

pub use text::{Text, ascii};
