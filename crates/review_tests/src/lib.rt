//! Tests of policies and reviews, through the public functions that decide them.
#![tactic(auto)]

#[cfg(test)]
mod tests;
