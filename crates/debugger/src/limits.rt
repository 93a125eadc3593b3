//! The limits of a session's commands.

/// The maximum number of steps of a command.
pub(crate) const MOVE_LIMIT: u64 = 1_000_000;

/// The last step that can be shown.
pub(crate) const PLACE_LIMIT: u64 = 1_000_000_000;
