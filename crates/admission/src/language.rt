//! Languages of policies.

use wide_policy::MessageRule;

/// The language of a policy's expressions.
#[derive(Clone, Copy, Debug, PartialEq, Eq)]
pub enum Language {
    /// The language that is compiled.
    Profile,
    /// The wide language, in which API servers store policies. Its expressions are translated.
    Wide(MessageRule),
}
