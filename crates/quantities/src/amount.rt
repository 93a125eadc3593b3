//! Quantities as exact numbers.

/// An exact quantity. Equal numbers are equal quantities, also if their texts differ.
#[derive(Clone, Copy, Debug, PartialEq, Eq)]
pub struct Quantity {
    /// The number in billionths.
    pub billionths: i128,
}
