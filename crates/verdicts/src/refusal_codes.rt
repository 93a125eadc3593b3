//! The codes of why a request is not decided.

/// The review is refused.
pub const REVIEW_REFUSED: &str = "N2";

/// The namespace or the params are refused.
pub const NAMESPACE_OR_PARAMS_REFUSED: &str = "N3";

/// A policy's program did not end within its steps.
pub const OUT_OF_STEPS: &str = "N4";

/// A policy's program was stopped at a limit.
pub const OVER_LIMIT: &str = "N5";

/// Whether the request matches depends on what the cluster serves.
pub const UNKNOWN_MATCH: &str = "N6";

/// A policy's program would have read more than its limit.
pub const OUT_OF_READS: &str = "N7";
