//! Message expressions that are left out.

use crate::expression_error::WideExpressionError;

/// A message expression that is left out.
#[derive(Debug, Drop)]
pub struct LeftOut {
    /// The place of its validation, counted from 0.
    pub validation: usize,
    /// Why it is refused.
    pub cause: WideExpressionError,
}
