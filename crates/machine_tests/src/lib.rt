//! Tests of tables of values, helpers and steps.
#![tactic(auto)]

#[cfg(test)]
mod helper_tests;
#[cfg(test)]
mod step_tests;
#[cfg(test)]
mod table_tests;
