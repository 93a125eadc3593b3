//! Validations that are translated.

use crate::expression_error::WideExpressionError;
use policy_glue::Validation;

/// A validation with the texts of its author, and with those of the translations.
#[derive(Debug, Drop)]
pub struct TakenPair {
    pub source: Validation,
    pub profile: Validation,
    /// Why its message expression is left out.
    pub refusal: Option<WideExpressionError>,
}
