//! A call that failed.

/// A read or a write that failed. The reason is known only to its implementation.
#[derive(Clone, Copy, Debug, PartialEq, Eq)]
pub struct Failed;
