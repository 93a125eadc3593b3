//! Equivalent resources: a server may store them in the same place.
ghost use Rattle.std.specs.Prelude.{◌≡◌, ◌&&◌, ◌∷◌, [], codes, map, string_bytes};
ghost use Rattle.std.specs.List.{list_any};
ghost use Rattle.admission_match.specs.Requests.{attributes_view, resource_view};
ghost use Rattle.admission_match.specs.Rules.{are, at_version, fits_other_version, fits_own_group, fits_shared_group, has_or_any, is_cluster, is_shared, may_fit, rule_view, sharing_groups};
ghost use Rattle.label_selectors.specs.Selectors.{is_one_of};

use crate::attributes::Attributes;
use crate::patterns::{covers_one, has_or_any};
use crate::rule::Rule;
use label_selectors::Labels;

/// Whether the rule may fit the request under another resource: one that a server may store in the
/// same place as the named one.
#[tactic(auto, unfolding(crate::specs::Rules::may_fit))]
pub(crate) fn may_fit<L: Labels>(rule: &Rule, request: &Attributes<'_, L>) -> bool
    ensures { result ≡ may_fit (rule_view rule.now) (attributes_view L.map request.now) }
{
    rule.fits_request(request)
        && covers_one(
            &rule.resources,
            request.resource.resource,
            request.subresource,
        )
        && (fits_own_group(rule, request) || fits_shared_group(rule, request))
}

/// Whether the rule fits another version of the request's resource.
fn fits_own_group<L: Labels>(rule: &Rule, request: &Attributes<'_, L>) -> bool
    ensures { result ≡ fits_own_group (rule_view rule.now) (attributes_view L.map request.now) }
{
    has_or_any(&rule.api_groups, request.resource.group)
        && fits_one_version(rule, request, &rule.api_versions)
}

/// Whether one of the patterns has a version other than the request's in which the scope fits.
fn fits_one_version<L: Labels>(
    rule: &Rule,
    request: &Attributes<'_, L>,
    patterns: &[String],
) -> bool
    ensures { result ≡ list_any (fits_other_version (rule_view rule.now) (attributes_view L.map request.now)) (map string_bytes patterns.now) }
{
    some_fits_other_version(rule, request, patterns)
}

fn some_fits_other_version<L: Labels>(
    rule: &Rule,
    request: &Attributes<'_, L>,
    patterns: &[String],
) -> bool
    ensures { result ≡ list_any (λ p. fits_other_version (rule_view rule.now) (attributes_view L.map request.now) (string_bytes p)) patterns.now }
{
    patterns.iter().any(|pattern| fits_other_version(rule, request, pattern.as_str()))
}

/// Whether a pattern of `apiVersions` has a version other than the request's in which the scope
/// fits. Only version v1 of the core namespaces has a different scope.
fn fits_other_version<L: Labels>(rule: &Rule, request: &Attributes<'_, L>, pattern: &str) -> bool
    ensures { result ≡ fits_other_version (rule_view rule.now) (attributes_view L.map request.now) pattern.now }
{
    if pattern == "*" {
        rule.scope.fits(request.namespace.is_empty())
            || (request.resource.version != "v1" && rule.scope.fits(is_cluster_at(request, "v1")))
    } else {
        pattern != request.resource.version && rule.scope.fits(is_cluster_at(request, pattern))
    }
}

/// Whether the request would be cluster-scoped in another version.
fn is_cluster_at<L: Labels>(request: &Attributes<'_, L>, version: &str) -> bool
    ensures { result ≡ is_cluster (attributes_view L.map request.now) (at_version (resource_view request.now.resource) version.now) }
{
    (request.resource.group.is_empty() && version == "v1" && request.is_on_namespaces())
        || request.namespace.is_empty()
}

/// Whether the rule fits a version of the request's resource in a group that shares it.
fn fits_shared_group<L: Labels>(rule: &Rule, request: &Attributes<'_, L>) -> bool
    ensures { result ≡ fits_shared_group (rule_view rule.now) (attributes_view L.map request.now) }
{
    rule.scope.fits(request.namespace.is_empty())
        && !rule.api_versions.is_empty()
        && has_sharing_group(
            &rule.api_groups,
            request.resource.group,
            request.resource.resource,
        )
}

/// Whether the patterns include a group that shares the resource with this one.
#[tactic(auto, using(crate::proofs::Texts::or_none))]
fn has_sharing_group(patterns: &[String], group: &str, resource: &str) -> bool
    ensures { result ≡ list_any (λ h. is_shared group.now h resource.now && has_or_any (map string_bytes patterns.now) h) sharing_groups }
{
    has_group(patterns, group, "", resource)
        || has_group(patterns, group, "events.k8s.io", resource)
        || has_group(patterns, group, "extensions", resource)
        || has_group(patterns, group, "apps", resource)
        || has_group(patterns, group, "networking.k8s.io", resource)
}

/// Whether this group shares the resource with another group that the patterns include.
fn has_group(patterns: &[String], group: &str, other: &str, resource: &str) -> bool
    ensures { result ≡ (is_shared group.now other.now resource.now && has_or_any (map string_bytes patterns.now) other.now) }
{
    is_shared(group, other, resource) && has_or_any(patterns, other)
}

/// Whether the two groups store this resource in one place.
#[tactic(auto, unfolding(crate::specs::Rules::is_shared))]
fn is_shared(group: &str, other: &str, resource: &str) -> bool
    ensures { result ≡ is_shared group.now other.now resource.now }
{
    shares_events(group, other, resource)
        || shares_workloads(group, other, resource)
        || shares_networks(group, other, resource)
}

/// Whether these are the two groups of events, and this is their resource.
#[tactic(auto, using(crate::proofs::Texts::or_none))]
fn shares_events(group: &str, other: &str, resource: &str) -> bool
    ensures { result ≡ (are group.now other.now [] (codes "events.k8s.io") && is_one_of resource.now (codes "events" ∷ [])) }
{
    are(group, other, "", "events.k8s.io") && resource == "events"
}

/// Whether these are the two groups of workloads, and this is one of their resources.
#[tactic(auto, using(crate::proofs::Texts::or_none))]
fn shares_workloads(group: &str, other: &str, resource: &str) -> bool
    ensures { result ≡ (are group.now other.now (codes "extensions") (codes "apps")
        && is_one_of resource.now (codes "deployments" ∷ codes "daemonsets" ∷ codes "replicasets" ∷ [])) }
{
    are(group, other, "extensions", "apps")
        && (resource == "deployments" || resource == "daemonsets" || resource == "replicasets")
}

/// Whether these are the two groups of networks, and this is one of their resources.
#[tactic(auto, using(crate::proofs::Texts::or_none))]
fn shares_networks(group: &str, other: &str, resource: &str) -> bool
    ensures { result ≡ (are group.now other.now (codes "extensions") (codes "networking.k8s.io")
        && is_one_of resource.now (codes "ingresses" ∷ codes "networkpolicies" ∷ [])) }
{
    are(group, other, "extensions", "networking.k8s.io")
        && (resource == "ingresses" || resource == "networkpolicies")
}

/// Whether these are the two groups, in either order.
fn are(group: &str, other: &str, one: &str, another: &str) -> bool
    ensures { result ≡ are group.now other.now one.now another.now }
{
    (group == one && other == another) || (group == another && other == one)
}
