//! A validation.

use crate::reason::Reason;

/// A validation of a policy.
#[derive(Debug, Drop)]
pub struct Validation {
    /// Its CEL expression. The validation denies if it is false.
    pub expression: String,
    /// The message of a denial, empty if none is set.
    pub message: String,
    /// The reason of its denials.
    pub reason: Reason,
    /// A CEL expression that gives the message of a denial instead.
    pub message_expression: Option<String>,
}
