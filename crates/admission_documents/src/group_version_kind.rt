//! Kinds of the API.
ghost use Rattle.std.specs.Prelude.{◌≡◌};
ghost use Rattle.admission_documents.specs.Requests.{is_core_namespace, kind_view};

/// A kind of the API: its group (empty for the core group), its version and its name.
#[derive(Clone, Copy, Debug, Drop)]
pub struct GroupVersionKind<'a> {
    pub group: &'a str,
    pub version: &'a str,
    pub kind: &'a str,
}

impl GroupVersionKind<'_> {
    /// Whether this is the kind Namespace of the core group, version v1.
    pub fn is_core_namespace(&self) -> bool
        ensures { result ≡ is_core_namespace (kind_view self.now) }
    {
        self.group.is_empty() && self.version == "v1" && self.kind == "Namespace"
    }
}
