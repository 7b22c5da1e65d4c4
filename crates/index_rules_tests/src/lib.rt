//! The public calls of the rules, the tables in memory and the desk: that they succeed, and what no clause says of
//! them.
#![tactic(auto)]

#[cfg(test)]
mod tests;
