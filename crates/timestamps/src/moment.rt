//! A point in time.

/// A point in time, ordered as time is.
#[derive(Clone, Copy, Debug, PartialEq, Eq, PartialOrd, Ord)]
pub struct Timestamp {
    /// Nanoseconds since the start of 1970 in UTC, negative before.
    pub nanoseconds: i128,
}
