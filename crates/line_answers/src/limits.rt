//! Limits on what is kept.

/// The most bytes of room that a line's buffer keeps for the next line.
pub const KEPT_ROOM: usize = 1_048_576;
