//! A policy whose expressions are checked.

use crate::checked_validation::CheckedValidation;
use cel_macros::Core;
use cel_types::Scope;

/// The expressions of a policy, with their macros expanded. Each list is in order.
#[derive(Debug, Drop)]
pub struct Checked {
    /// The variables, with their types and depths.
    pub scope: Scope,
    /// The expressions of the variables.
    pub variables: Vec<Core>,
    /// The match conditions.
    pub conditions: Vec<Core>,
    pub validations: Vec<CheckedValidation>,
}
