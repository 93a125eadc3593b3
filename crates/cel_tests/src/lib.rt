//! Tests of tokens, trees, macros, types and measures of CEL expressions.
#![tactic(auto)]

#[cfg(test)]
mod tests;
