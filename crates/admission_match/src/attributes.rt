//! The attributes of a request that matching reads.
ghost use Rattle.std.specs.Prelude.{◌≡◌};
ghost use Rattle.admission_match.specs.Matching.{is_outside_namespaces, writes_namespace};
ghost use Rattle.admission_match.specs.Requests.{attributes_view, is_namespaces, resource_view};
ghost use Rattle.admission_match.specs.Rules.{is_cluster};

use crate::group_version_resource::GroupVersionResource;
use crate::operation::Operation;
use label_selectors::Labels;

/// The fields of a request that decide whether it matches. Texts that are missing in the review are
/// empty.
#[derive(Debug, Drop)]
pub struct Attributes<'a, L> {
    /// The resource that the request names.
    pub resource: GroupVersionResource<'a>,
    pub subresource: &'a str,
    /// Empty on CREATE with `generateName`, and on DELETE of a collection.
    pub name: &'a str,
    /// The request's namespace. For requests on namespaces of the core group this is their own
    /// name.
    pub namespace: &'a str,
    pub operation: Operation,
    /// The labels of `object`, if it is an object with `metadata`.
    pub object: Option<L>,
    /// The labels of `oldObject`, if it is an object with `metadata`.
    pub old_object: Option<L>,
}

impl<L: Labels> Attributes<'_, L> {
    /// Whether the request is cluster-scoped. Requests on namespaces of the core group are.
    pub(crate) fn is_cluster(&self) -> bool
        ensures { result ≡ is_cluster (attributes_view L.map self.now) (resource_view self.now.resource) }
    {
        self.resource.is_core_namespaces() || self.namespace.is_empty()
    }

    /// Whether the request is on namespaces, of any group.
    pub(crate) fn is_on_namespaces(&self) -> bool
        ensures { result ≡ is_namespaces (resource_view self.now.resource) }
    {
        self.resource.resource == "namespaces"
    }

    /// Whether the request is cluster-scoped and not on namespaces.
    pub(crate) fn is_outside_namespaces(&self) -> bool
        ensures { result ≡ is_outside_namespaces (attributes_view L.map self.now) }
    {
        self.namespace.is_empty() && !self.is_on_namespaces()
    }

    /// Whether the request creates or updates a namespace, and not a subresource of one.
    pub(crate) fn writes_namespace(&self) -> bool
        ensures { result ≡ writes_namespace (attributes_view L.map self.now) }
    {
        self.is_on_namespaces() && self.subresource.is_empty() && self.operation.writes()
    }
}
