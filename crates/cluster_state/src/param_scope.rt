//! Whether objects of a kind have namespaces.

/// The scope of a kind.
#[derive(Clone, Copy, Debug, PartialEq, Eq)]
pub enum ParamScope {
    /// Its objects are in namespaces.
    Namespaced,
    /// Its objects are cluster-scoped.
    Cluster,
}
