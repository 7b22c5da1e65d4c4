//! Requests to an index, over HTTP and as lines, and its answers.
#![tactic(auto)]

#[cfg(test)]
mod tests;
