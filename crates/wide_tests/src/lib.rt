//! Tests of expressions as API servers store them.
#![tactic(auto)]

#[cfg(test)]
mod tests;
