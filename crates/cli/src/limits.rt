//! Limits of steps for both programs, and of reads for the gatekeeper.

/// The largest value of `--steps`.
pub(crate) const STEP_LIMIT: u64 = 1_000_000_000;

/// The default of `--steps`.
pub(crate) const DEFAULT_STEPS: u64 = 10_000_000;

/// The largest value of `--reads`: 2^62.
pub(crate) const MOST_READS: u64 = 4_611_686_018_427_387_904;

/// The default of `--reads`.
pub(crate) const DEFAULT_READS: u64 = 16_777_216;
