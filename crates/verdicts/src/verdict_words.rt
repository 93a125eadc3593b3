//! The words of the verdict region: their places, and what they hold.

/// The first of the words with the results of the validations.
pub const FIRST_RESULT: u64 = 2;

/// The first of the words with the references of the message texts.
pub const FIRST_MESSAGE: u64 = 66;

/// The outcome if a condition is false.
pub const SKIPPED: u64 = 1;

/// The outcome if a condition could not be decided, under `Fail`.
pub const REJECTED: u64 = 2;

/// The outcome if a validation denies.
pub const DENIED: u64 = 3;

/// The outcome if no validation denies.
pub const ADMITTED: u64 = 4;

/// The result word of a validation that is false.
pub const FAILS: u64 = 1;

/// The result word of a validation that is an error.
pub const ERRS: u64 = 2;
