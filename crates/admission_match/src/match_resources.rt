//! Match resources.

use crate::match_policy::MatchPolicy;
use crate::rule::Rule;
use label_selectors::LabelSelector;

/// The requests that a policy or a binding applies to (MatchResources,
/// `admissionregistration.k8s.io/v1`), with the API server's defaults for missing fields.
#[derive(Debug, Drop)]
pub struct MatchResources {
    pub match_policy: MatchPolicy,
    pub namespace_selector: LabelSelector,
    pub object_selector: LabelSelector,
    /// One of these rules must fit. If there are none, every request matches.
    pub resource_rules: Vec<Rule>,
    pub exclude_resource_rules: Vec<Rule>,
}
