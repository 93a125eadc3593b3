//! The limit of an image's constants.

/// The maximum number of bytes of constants.
pub const CONSTANTS_LIMIT: u64 = 1_048_576;
