//! Why a text gives no quantity.

use thiserror::Error;

/// Why a text or a sum gives no quantity.
#[derive(Clone, Copy, Debug, PartialEq, Eq, Error)]
pub enum QuantityError {
    /// The text is not a quantity.
    #[error("not a quantity")]
    NotAQuantity,
    /// The digits, times the power of 2 of a binary suffix, or the billionths of the quantity do not fit 127 bits.
    #[error("a quantity of more than 127 bits")]
    TooLarge,
}
