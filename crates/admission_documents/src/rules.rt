//! Rules in documents.
ghost use Rattle.std.specs.Prelude.{◌≡◌, map, option_map};
ghost use Rattle.serde_json.specs.View.{items_view, view};
ghost use Rattle.admission_match.specs.Rules.{rule_view};
ghost use Rattle.json_fields.specs.Fields.{each, has_only};
ghost use Rattle.admission_documents.specs.Fields.{ReadsField};
ghost use Rattle.admission_documents.specs.Matching.{patterns_in, patterns_view, rule_in, rule_keys, rule_parts, rules_of, scope_of};

use crate::field_error::FieldError;
use crate::resource_patterns::ResourcePatterns;
use crate::text_lists::texts;
use admission_match::{Rule, Scope};
use json_fields::{field, has_only_keys};
use serde_json::Value;
use std::alloc::Global;

/// An optional list of rules, empty if it is absent.
#[tactic(auto, unfolding(crate::specs::Matching::rules_of))]
pub fn rules(alloc: Global, value: Option<&Value>) -> Result<Vec<Rule>, FieldError>
    ensures { ReadsField (λ v. map rule_view v.items) (rules_of (option_map (λ v. view v.now) value.entry)) result }
{
    match value {
        None => Ok(Vec::new(alloc)),
        Some(Value::Array(items)) => rules_in(alloc, items),
        Some(_) => Err(FieldError::InvalidField),
    }
}

fn rules_in(alloc: Global, items: &Vec<Value>) -> Result<Vec<Rule>, FieldError>
    ensures { ReadsField (λ v. map rule_view v.items) (each rule_in (items_view items.now.items)) result }
{
    let mut rules = Vec::new(alloc);
    for item in items {
        rules.push(rule(alloc, item)?)?;
    }
    Ok(rules)
}

fn rule(alloc: Global, value: &Value) -> Result<Rule, FieldError>
    ensures { ReadsField rule_view (rule_in (view value.now)) result }
{
    if !has_rule_keys(value) {
        return Err(FieldError::InvalidField);
    }
    rule_parts(alloc, value)
}

#[tactic(auto, unfolding(crate::specs::Matching::rule_keys))]
fn has_rule_keys(value: &Value) -> bool
    ensures { result ≡ has_only rule_keys (view value.now) }
{
    let known = [
        "apiGroups",
        "apiVersions",
        "operations",
        "resourceNames",
        "resources",
        "scope",
    ];
    has_only_keys(value, known.as_slice())
}

#[tactic(auto, unfolding(crate::specs::Matching::rule_parts))]
fn rule_parts(alloc: Global, value: &Value) -> Result<Rule, FieldError>
    ensures { ReadsField rule_view (rule_parts (view value.now)) result }
{
    let patterns = patterns(alloc, value)?;
    let operations = texts(alloc, field(value, "operations"))?;
    let resource_names = texts(alloc, field(value, "resourceNames"))?;
    Ok(Rule {
        operations,
        api_groups: patterns.api_groups,
        api_versions: patterns.api_versions,
        resources: patterns.resources,
        resource_names,
        scope: patterns.scope,
    })
}

#[tactic(auto, unfolding(crate::specs::Matching::patterns_in))]
fn patterns(alloc: Global, value: &Value) -> Result<ResourcePatterns, FieldError>
    ensures { ReadsField patterns_view (patterns_in (view value.now)) result }
{
    let Some(scope) = scope(field(value, "scope")) else {
        return Err(FieldError::InvalidField);
    };
    let api_groups = texts(alloc, field(value, "apiGroups"))?;
    let api_versions = texts(alloc, field(value, "apiVersions"))?;
    let resources = texts(alloc, field(value, "resources"))?;
    Ok(ResourcePatterns {
        scope,
        api_groups,
        api_versions,
        resources,
    })
}

/// The scope of a rule, `*` by default.
#[tactic(auto, unfolding(crate::specs::Matching::scope_of))]
fn scope(value: Option<&Value>) -> Option<Scope>
    ensures { result ≡ scope_of (option_map (λ v. view v.now) value.entry) }
{
    match value {
        None => Some(Scope::All),
        Some(Value::String(name)) => match name.as_str() {
            "*" => Some(Scope::All),
            "Cluster" => Some(Scope::Cluster),
            "Namespaced" => Some(Scope::Namespaced),
            _ => None,
        },
        Some(_) => None,
    }
}
