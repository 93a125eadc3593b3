//! The limit of nesting.

/// The maximum number of open brackets and conditionals.
pub const OPEN_LIMIT: u8 = 100;
