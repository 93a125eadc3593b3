//! Message expressions that are translated or left out.

use crate::expression_error::WideExpressionError;

/// A message expression that is translated or left out.
#[derive(Debug, Drop)]
pub struct TakenMessage {
    /// The text of its author, if it is not left out.
    pub source: Option<String>,
    /// The text of its translation.
    pub profile: Option<String>,
    /// Why it is left out.
    pub refusal: Option<WideExpressionError>,
}
