//! Match rules.
ghost use Rattle.std.specs.Prelude.{◌≡◌};
ghost use Rattle.admission_match.specs.Requests.{attributes_view, resource_view};
ghost use Rattle.admission_match.specs.Rules.{fits, fits_request, rule_view};

use crate::attributes::Attributes;
use crate::patterns::{covers_one, has_name, has_or_any};
use crate::scope::Scope;
use label_selectors::Labels;

/// The requests that a rule fits (NamedRuleWithOperations). If one of the first four lists is
/// empty, it fits none; an empty list of names fits all.
#[derive(Debug, Drop)]
pub struct Rule {
    pub operations: Vec<String>,
    pub api_groups: Vec<String>,
    pub api_versions: Vec<String>,
    /// Patterns such as `pods`, `pods/exec`, `pods/*`, `*`, `*/scale`, `*/*`.
    pub resources: Vec<String>,
    pub resource_names: Vec<String>,
    pub scope: Scope,
}

impl Rule {
    /// Whether the rule fits the request, for the resource that the request names.
    #[tactic(auto, unfolding(crate::specs::Rules::fits))]
    pub fn fits<L: Labels>(&self, request: &Attributes<'_, L>) -> bool
        ensures { result ≡ fits (rule_view self.now) (attributes_view L.map request.now) (resource_view request.now.resource) }
    {
        self.fits_request(request)
            && self.scope.fits(request.is_cluster())
            && has_or_any(&self.api_groups, request.resource.group)
            && has_or_any(&self.api_versions, request.resource.version)
            && covers_one(
                &self.resources,
                request.resource.resource,
                request.subresource,
            )
    }

    /// Whether the request's operation and name fit.
    pub(crate) fn fits_request<L: Labels>(&self, request: &Attributes<'_, L>) -> bool
        ensures { result ≡ fits_request (rule_view self.now) (attributes_view L.map request.now) }
    {
        has_or_any(&self.operations, request.operation.name())
            && has_name(&self.resource_names, request.name)
    }
}
