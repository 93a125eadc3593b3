//! Match conditions and variables in a document.

ghost use Rattle.std.specs.Prelude.{◌≡◌, map, option_map, IfOk};
ghost use Rattle.serde_json.specs.View.{view, items_view};
ghost use Rattle.json_fields.specs.Fields.{each, list_of};
ghost use Rattle.verdicts.specs.Policy.{named_view};
ghost use Rattle.verdicts.specs.Reading.{are_distinct, named_in, named_list_in, named_parts, Forms};

use crate::documents::text;
use crate::name_rule::NameRule;
use crate::named_expression::NamedExpression;
use crate::policy_error::PolicyError;
use json_fields::has_only_keys;
use serde_json::Value;
use std::alloc::{AllocError, Global};
use std::collections::BTreeSet;

/// An optional list of conditions or variables, whose names must be unique.
pub fn named_list(
    alloc: Global,
    value: Option<&Value>,
    rule: NameRule,
) -> Result<Vec<NamedExpression>, PolicyError>
    ensures { Forms (λ v. map named_view v.items) (named_list_in rule (option_map (λ v. view v.now) value.entry)) result }
{
    let list = optional_list(alloc, value, rule)?;
    if !are_distinct(alloc, list.as_slice())? {
        return Err(PolicyError::InvalidField);
    }
    Ok(list)
}

fn optional_list(
    alloc: Global,
    value: Option<&Value>,
    rule: NameRule,
) -> Result<Vec<NamedExpression>, PolicyError>
    ensures { Forms (λ v. map named_view v.items) (list_of (named_in rule) (option_map (λ v. view v.now) value.entry)) result }
{
    match value {
        None => Ok(Vec::new(alloc)),
        Some(Value::Array(items)) => list_of(alloc, items, rule),
        Some(_) => Err(PolicyError::InvalidField),
    }
}

fn list_of(
    alloc: Global,
    items: &Vec<Value>,
    rule: NameRule,
) -> Result<Vec<NamedExpression>, PolicyError>
    ensures { Forms (λ v. map named_view v.items) (each (named_in rule) (items_view items.now.items)) result }
{
    let mut list = Vec::new(alloc);
    for item in items {
        list.push(named(alloc, item, rule)?)?;
    }
    Ok(list)
}

#[tactic(auto, unfolding(crate::specs::Reading::named_keys))]
fn named(alloc: Global, value: &Value, rule: NameRule) -> Result<NamedExpression, PolicyError>
    ensures { Forms named_view (named_in rule (view value.now)) result }
{
    if !has_only_keys(value, ["name", "expression"].as_slice()) {
        return Err(PolicyError::InvalidField);
    }
    let named = named_parts(alloc, value)?;
    if !rule.allows(named.name.as_str()) {
        return Err(PolicyError::InvalidField);
    }
    Ok(named)
}

#[tactic(auto, unfolding(crate::specs::Reading::named_parts))]
fn named_parts(alloc: Global, value: &Value) -> Result<NamedExpression, PolicyError>
    ensures { Forms named_view (named_parts (view value.now)) result }
{
    let name = text(alloc, value.get("name"))?;
    let expression = text(alloc, value.get("expression"))?;
    Ok(NamedExpression { name, expression })
}

/// Whether no two names are equal.
fn are_distinct(alloc: Global, list: &[NamedExpression]) -> Result<bool, AllocError>
    ensures { IfOk result (λ distinct. distinct ≡ are_distinct (map named_view list.now)) }
{
    let mut names = BTreeSet::new(alloc);
    for named in list {
        if !names.insert(named.name.as_str())? {
            return Ok(false);
        }
    }
    Ok(true)
}
