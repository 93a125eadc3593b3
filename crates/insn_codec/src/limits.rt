//! The limits of code.

/// The maximum number of slots of code.
pub const SLOT_LIMIT: u32 = 65_536;
