//! Books over a volume: that their calls succeed, and what no clause says of them.
#![tactic(auto)]

#[cfg(test)]
mod tests;
