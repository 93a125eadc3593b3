//! A validation whose expressions are checked.

use cel_macros::Core;

/// The expressions of a validation, with their macros expanded.
#[derive(Debug, Drop)]
pub struct CheckedValidation {
    pub expression: Core,
    /// The expression of its message, if it has one.
    pub message: Option<Core>,
}
