//! Tests of code generation for expressions, and of policies with their programs and responses.
#![tactic(auto)]

#[cfg(test)]
mod tests;
