//! Whether a list of rules fits a request.

/// Whether a rule of a list fits a request.
#[derive(Clone, Copy)]
pub(crate) enum RulesAnswer {
    /// A rule fits the resource that the request names.
    SomeFits,
    /// No rule fits, on any server.
    NoneFits,
    /// A rule fits a resource that the server may store in the same place.
    NotKnown,
}
