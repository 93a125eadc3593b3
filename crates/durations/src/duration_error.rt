//! Why a text gives no duration.

use thiserror::Error;

/// Why a text gives no duration.
#[derive(Clone, Copy, Debug, PartialEq, Eq, Error)]
pub enum DurationError {
    /// The text is no duration, or one outside 64 bits of nanoseconds.
    #[error("not a duration")]
    Invalid,
    /// A number has more places after its point than are read exactly: h 11, m 10, s 9, ms 6, us 3, ns 0.
    #[error("a duration with too many places")]
    TooFine,
}
