//! The contents of a policy's document.

use crate::failure_policy::FailurePolicy;
use crate::named_expression::NamedExpression;
use crate::validation::Validation;

/// The contents of a policy's document.
#[derive(Debug, Drop)]
pub struct Parts {
    /// What happens if an expression cannot be decided.
    pub failure_policy: FailurePolicy,
    /// The match conditions, in order.
    pub conditions: Vec<NamedExpression>,
    /// The variables, in order.
    pub variables: Vec<NamedExpression>,
    /// The validations, in order.
    pub validations: Vec<Validation>,
}
