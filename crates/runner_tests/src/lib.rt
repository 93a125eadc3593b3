//! Tests of command lines, of what the commands write, and of the main function of each program.
#![tactic(auto)]

#[cfg(test)]
mod tests;
