//! Policies as requests meet them.

use cluster_state::{KnownKind, Policy};

/// A bound policy, and the kind of its params.
#[derive(Clone, Copy, Debug, Drop)]
pub struct AskedPolicy<'p, 'a> {
    pub policy: &'p Policy<'a>,
    /// None if the policy has no kind of params, or one of which params cannot be found.
    pub kind: Option<KnownKind<'a>>,
}
