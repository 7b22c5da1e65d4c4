//! How runs over lines end, and the exact texts of input and output, which no clause gives.
#![tactic(auto)]

#[cfg(test)]
mod tests;
