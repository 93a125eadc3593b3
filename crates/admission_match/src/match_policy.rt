//! How rules compare resources.

/// How a request's resource is compared with the rules (MatchPolicyType).
#[derive(Clone, Copy, Debug, PartialEq, Eq)]
pub enum MatchPolicy {
    /// Only the resource that the request names.
    Exact,
    /// This resource, and the others that the server stores in the same place.
    Equivalent,
}
