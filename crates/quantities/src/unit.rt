//! The units of quantities.

/// What the suffix of a quantity multiplies its number by.
#[derive(Clone, Copy, Debug, PartialEq, Eq)]
pub enum Unit {
    /// A power of 10.
    Decimal(i64),
    /// A power of 2.
    Binary(u32),
}
