//! Whether a request matches.

use crate::trouble::Trouble;

/// Whether match resources match a request.
#[derive(Clone, Copy, Debug, PartialEq, Eq)]
pub enum Answer {
    /// They do not.
    No,
    /// They do, for the resource that the request names.
    Yes,
    /// This may depend on the equivalent resources that the server serves: a rule, or one that
    /// excludes, fits only one of these.
    Unknown,
    /// Everything else matches, but the labels of the namespace are unknown.
    Trouble(Trouble),
}
