//! Why a selector is not stored.

use thiserror::Error;

/// Why the API server refuses a requirement or a label of a selector.
#[derive(Clone, Copy, Debug, PartialEq, Eq, Error)]
pub enum SelectorError {
    /// The key is neither a name nor a prefix, `/` and a name.
    #[error("not a label key")]
    InvalidKey,
    /// The operator is not one of the four, `In` or `NotIn` has no values, or another operator has
    /// some.
    #[error("not an operator with its values")]
    InvalidOperator,
    /// A value is neither empty nor a name.
    #[error("not a label value")]
    InvalidValue,
}
