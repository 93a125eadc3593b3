//! The scopes of rules.
ghost use Rattle.std.specs.Prelude.{◌≡◌};
ghost use Rattle.admission_match.specs.Rules.{scope_fits};

/// The scope of a rule (ScopeType).
#[derive(Clone, Copy, Debug, PartialEq, Eq)]
pub enum Scope {
    /// `*`: all requests.
    All,
    /// Requests on cluster-scoped resources, and on namespaces of the core group.
    Cluster,
    /// Requests on namespaced resources.
    Namespaced,
}

impl Scope {
    /// Whether the scope includes a request that is, or is not, cluster-scoped.
    pub(crate) fn fits(self, is_cluster: bool) -> bool
        ensures { result ≡ scope_fits self is_cluster }
    {
        match self {
            Scope::All => true,
            Scope::Cluster => is_cluster,
            Scope::Namespaced => !is_cluster,
        }
    }
}
