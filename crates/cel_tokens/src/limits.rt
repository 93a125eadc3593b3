//! The limits of an expression's text.

/// The maximum number of bytes of an expression's text.
pub const TEXT_LIMIT: usize = 65_536;

/// The maximum number of tokens of an expression.
pub const TOKEN_LIMIT: usize = 4_096;
