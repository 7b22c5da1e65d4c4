//! Parsing and printing, by examples from outside: values, messages and pages; and retention cases.
#![tactic(auto)]

#[cfg(test)]
mod tests;
