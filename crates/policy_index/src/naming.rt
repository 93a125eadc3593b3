//! The resources that rules name.
ghost use Rattle.std.specs.Prelude.{◌≡◌, map, string_bytes};
ghost use Rattle.std.specs.List.{list_any};
ghost use Rattle.admission_match.specs.Matching.{match_view};
ghost use Rattle.admission_match.specs.Rules.{is_or_any, rule_view};
ghost use Rattle.policy_index.specs.Naming as specs;

use admission_match::{MatchResources, Rule};

/// Whether the match resources may match a request on this resource. If not, they match none.
#[tactic(auto, unfolding(crate::specs::Naming::may_match))]
pub fn may_match(constraints: &MatchResources, resource: &str) -> bool
    ensures { result ≡ specs.may_match (match_view constraints.now) resource.now }
{
    constraints.resource_rules.is_empty()
        || one_names(&constraints.resource_rules, resource)
        || one_names(&constraints.exclude_resource_rules, resource)
}

/// Whether a pattern of the rules names the resource, or `*`.
fn one_names(rules: &[Rule], resource: &str) -> bool
    ensures { result ≡ specs.one_names (map rule_view rules.now) resource.now }
{
    some_rule_names(rules, resource)
}

fn some_rule_names(rules: &[Rule], resource: &str) -> bool
    ensures { result ≡ list_any (λ r. list_any (λ p. specs.names (string_bytes p) resource.now) r.resources.items) rules.now }
{
    rules
        .iter()
        .any(|rule| some_pattern_names(&rule.resources, resource))
}

fn some_pattern_names(patterns: &[String], resource: &str) -> bool
    ensures { result ≡ list_any (λ p. specs.names (string_bytes p) resource.now) patterns.now }
{
    patterns
        .iter()
        .any(|pattern| names(pattern.as_str(), resource))
}

/// Whether the pattern names the resource, or `*`.
fn names(pattern: &str, resource: &str) -> bool
    ensures { result ≡ specs.names pattern.now resource.now }
{
    is_or_any(named_resource(pattern), resource)
}

fn is_or_any(pattern: &str, text: &str) -> bool
    ensures { result ≡ is_or_any pattern.now text.now }
{
    pattern == "*" || pattern == text
}

/// What stands before the first slash of a pattern, the whole pattern if it has none.
pub(crate) fn named_resource(pattern: &str) -> &str
    ensures { result.now ≡ specs.named_resource pattern.now }
{
    match pattern.split_once('/') {
        Some((resource, _)) => resource,
        None => pattern,
    }
}
