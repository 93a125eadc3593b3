//! Why the labels of a namespace are unknown.

/// Why the labels of a request's namespace are unknown.
#[derive(Clone, Copy, Debug, PartialEq, Eq)]
pub enum Trouble {
    /// The request is on a collection of namespaces and has no name.
    NoName,
    /// The namespace of the request does not exist.
    NotFound,
}
