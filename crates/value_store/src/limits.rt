//! The limits of a store.

/// The most that a store is charged, for its roots and all calls together.
pub const CHARGE_LIMIT: u64 = 16_777_216;

/// The greatest length of a JSON text that a store tells, 2^62: the sum of two fits a word.
pub const JSON_LENGTH_LIMIT: u64 = 4_611_686_018_427_387_904;
