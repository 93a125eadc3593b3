//! Resources of the API.
ghost use Rattle.std.specs.Prelude.{◌≡◌};
ghost use Rattle.admission_match.specs.Requests.{is_access_review, is_authentication_review, is_core_namespaces, is_exempt, is_policy_resource, resource_view};

/// A resource of the API: its group (empty for the core group), its version and its plural.
#[derive(Clone, Copy, Debug, Drop)]
pub struct GroupVersionResource<'a> {
    pub group: &'a str,
    pub version: &'a str,
    pub resource: &'a str,
}

impl GroupVersionResource<'_> {
    /// Whether the API server asks no policy about requests on this resource. Version and
    /// subresource do not matter.
    #[tactic(auto, unfolding(crate::specs::Requests::is_exempt))]
    pub fn is_exempt(&self) -> bool
        ensures { result ≡ is_exempt (resource_view self.now) }
    {
        (self.group == "admissionregistration.k8s.io" && is_policy_resource(self.resource))
            || (self.group == "authentication.k8s.io" && is_authentication_review(self.resource))
            || (self.group == "authorization.k8s.io" && is_access_review(self.resource))
    }

    /// Whether these are the namespaces of the core group, version v1.
    pub(crate) fn is_core_namespaces(&self) -> bool
        ensures { result ≡ is_core_namespaces (resource_view self.now) }
    {
        self.group.is_empty() && self.version == "v1" && self.resource == "namespaces"
    }
}

/// Whether these are admission policies or their bindings.
#[tactic(auto, unfolding(crate::specs::Requests::is_policy_resource))]
fn is_policy_resource(resource: &str) -> bool
    ensures { result ≡ is_policy_resource resource.now }
{
    resource == "validatingadmissionpolicies"
        || resource == "validatingadmissionpolicybindings"
        || resource == "mutatingadmissionpolicies"
        || resource == "mutatingadmissionpolicybindings"
}

/// Whether these are authentication reviews.
#[tactic(auto, unfolding(crate::specs::Requests::is_authentication_review))]
fn is_authentication_review(resource: &str) -> bool
    ensures { result ≡ is_authentication_review resource.now }
{
    resource == "selfsubjectreviews" || resource == "tokenreviews"
}

/// Whether these are access reviews.
#[tactic(auto, unfolding(crate::specs::Requests::is_access_review))]
fn is_access_review(resource: &str) -> bool
    ensures { result ≡ is_access_review resource.now }
{
    resource == "localsubjectaccessreviews"
        || resource == "selfsubjectaccessreviews"
        || resource == "selfsubjectrulesreviews"
        || resource == "subjectaccessreviews"
}
