//! Tests of histories and sessions, of the bytes that sessions read and write, and of error messages.
#![tactic(auto)]

#[cfg(test)]
mod tests;
