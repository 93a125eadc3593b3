//! What happens to message expressions that are refused.

/// What happens to a message expression that is refused.
#[derive(Clone, Copy, Debug, PartialEq, Eq)]
pub enum MessageRule {
    /// The policy is refused.
    Required,
    /// The message expression is left out. Denials then have the message of the validation.
    LeftOut,
}
