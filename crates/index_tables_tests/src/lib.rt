//! The index in a database: opened, used, damaged and stopped.
#![tactic(auto)]

#[cfg(test)]
mod tests;
