//! Documents of policies as `policy_glue` reads them.

ghost use Rattle.std.specs.Prelude.{◌≡◌, ◌∷◌, codes, IfOk};
ghost use Rattle.serde_json.specs.View.{items_view, members_view, view};
ghost use Rattle.policy_glue.specs.Reading.{named_keys, spec_keys, validation_keys};
ghost use Rattle.json_fields.specs.Members.{changed, each_changed, in_object, without_nulls};
ghost use Rattle.wide_policy.specs.WideDocuments.{named_items, named_members, normal_document, normal_members, normal_spec, of_text, stable_version, unless_empty_text, validation_items, validation_members};

use crate::fields::{unless_empty_list, unless_empty_text, with_trimmed};
use json_fields::{member, others, put_if, without_null, without_nulls};
use serde_json::{Map, Value};
use std::alloc::{AllocError, Global};

/// The document of a policy as one of version `v1`, without `status` and null fields, its texts trimmed.
pub(crate) fn normal_document(alloc: Global, document: Value) -> Result<Value, AllocError>
    ensures { IfOk result (λ v. view v ≡ normal_document (view document)) }
{
    match document {
        Value::Object(members) => Ok(Value::Object(normal_members(alloc, members)?)),
        other => Ok(other),
    }
}

fn normal_members(
    alloc: Global,
    members: Map<String, Value>,
) -> Result<Map<String, Value>, AllocError>
    ensures { IfOk result (λ m. members_view m.entries ≡ normal_members (members_view members.entries)) }
{
    let members = without_null(others(members, "status"), "metadata");
    let members = with_stable_version(alloc, members)?;
    let spec = match member(&members, "spec") {
        Some(spec) => Some(normal_spec(alloc, spec)?),
        None => None,
    };
    put_if(alloc, members, "spec", spec)
}

fn with_stable_version(
    alloc: Global,
    members: Map<String, Value>,
) -> Result<Map<String, Value>, AllocError>
    ensures { IfOk result (λ m. members_view m.entries ≡ changed (codes "apiVersion") (of_text stable_version) (members_view members.entries)) }
{
    let version = match member(&members, "apiVersion") {
        Some(version) => Some(stable(alloc, version)?),
        None => None,
    };
    put_if(alloc, members, "apiVersion", version)
}

/// The version `v1` for the versions whose policies have the same fields.
fn stable(alloc: Global, version: &Value) -> Result<Value, AllocError>
    ensures { IfOk result (λ v. view v ≡ of_text stable_version (view version.now)) }
{
    match version {
        Value::String(text) => {
            let text = stable_version(text.as_str());
            Ok(Value::String(String::from_str(alloc, text)?))
        }
        _ => version.clone(),
    }
}

fn stable_version(version: &str) -> &str
    ensures { result.now ≡ stable_version version.now }
{
    if version == "admissionregistration.k8s.io/v1beta1"
        || version == "admissionregistration.k8s.io/v1alpha1"
    {
        return "admissionregistration.k8s.io/v1";
    }
    version
}

fn normal_spec(alloc: Global, spec: &Value) -> Result<Value, AllocError>
    ensures { IfOk result (λ v. view v ≡ in_object normal_spec (view spec.now)) }
{
    match spec.clone()? {
        Value::Object(members) => Ok(Value::Object(spec_members(alloc, members)?)),
        other => Ok(other),
    }
}

fn spec_members(
    alloc: Global,
    members: Map<String, Value>,
) -> Result<Map<String, Value>, AllocError>
    ensures { IfOk result (λ m. members_view m.entries ≡ normal_spec (members_view members.entries)) }
{
    let members = without_spec_nulls(unless_empty_list(members, "auditAnnotations"));
    let members = with_named(alloc, members, "matchConditions")?;
    let members = with_named(alloc, members, "variables")?;
    let validations = match member(&members, "validations") {
        Some(validations) => Some(validation_items(alloc, validations)?),
        None => None,
    };
    put_if(alloc, members, "validations", validations)
}

#[tactic(auto, unfolding(verdicts::specs::Reading::spec_keys))]
fn without_spec_nulls(members: Map<String, Value>) -> Map<String, Value>
    ensures { members_view result.entries ≡ without_nulls (codes "auditAnnotations" ∷ spec_keys) (members_view members.entries) }
{
    let keys = [
        "auditAnnotations",
        "failurePolicy",
        "matchConditions",
        "matchConstraints",
        "paramKind",
        "validations",
        "variables",
    ];
    without_nulls(members, &keys)
}

/// The conditions or variables at this key without null fields, their expressions trimmed.
fn with_named(
    alloc: Global,
    members: Map<String, Value>,
    key: &str,
) -> Result<Map<String, Value>, AllocError>
    ensures { IfOk result (λ m. members_view m.entries ≡ changed key.now named_items (members_view members.entries)) }
{
    let named = match member(&members, key) {
        Some(named) => Some(named_items(alloc, named)?),
        None => None,
    };
    put_if(alloc, members, key, named)
}

fn named_items(alloc: Global, items: &Value) -> Result<Value, AllocError>
    ensures { IfOk result (λ v. view v ≡ named_items (view items.now)) }
{
    match items {
        Value::Array(items) => Ok(Value::Array(each_named(alloc, items)?)),
        _ => items.clone(),
    }
}

fn each_named(alloc: Global, items: &Vec<Value>) -> Result<Vec<Value>, AllocError>
    ensures { IfOk result (λ v. items_view v.items ≡ each_changed (in_object named_members) (items_view items.now.items)) }
{
    let mut each = Vec::new(alloc);
    for item in items {
        each.push(named(alloc, item)?)?;
    }
    Ok(each)
}

fn named(alloc: Global, item: &Value) -> Result<Value, AllocError>
    ensures { IfOk result (λ v. view v ≡ in_object named_members (view item.now)) }
{
    match item.clone()? {
        Value::Object(members) => {
            let members = without_named_nulls(members);
            Ok(Value::Object(with_trimmed(alloc, members, "expression")?))
        }
        other => Ok(other),
    }
}

#[tactic(auto, unfolding(verdicts::specs::Reading::named_keys))]
fn without_named_nulls(members: Map<String, Value>) -> Map<String, Value>
    ensures { members_view result.entries ≡ without_nulls named_keys (members_view members.entries) }
{
    without_nulls(members, &["name", "expression"])
}

fn validation_items(alloc: Global, items: &Value) -> Result<Value, AllocError>
    ensures { IfOk result (λ v. view v ≡ validation_items (view items.now)) }
{
    match items {
        Value::Array(items) => Ok(Value::Array(each_validation(alloc, items)?)),
        _ => items.clone(),
    }
}

fn each_validation(alloc: Global, items: &Vec<Value>) -> Result<Vec<Value>, AllocError>
    ensures { IfOk result (λ v. items_view v.items ≡ each_changed (in_object validation_members) (items_view items.now.items)) }
{
    let mut each = Vec::new(alloc);
    for item in items {
        each.push(validation(alloc, item)?)?;
    }
    Ok(each)
}

fn validation(alloc: Global, item: &Value) -> Result<Value, AllocError>
    ensures { IfOk result (λ v. view v ≡ in_object validation_members (view item.now)) }
{
    match item.clone()? {
        Value::Object(members) => Ok(Value::Object(validation_members(alloc, members)?)),
        other => Ok(other),
    }
}

fn validation_members(
    alloc: Global,
    members: Map<String, Value>,
) -> Result<Map<String, Value>, AllocError>
    ensures { IfOk result (λ m. members_view m.entries ≡ validation_members (members_view members.entries)) }
{
    let members = validation_fields(members);
    let members = with_trimmed(alloc, members, "expression")?;
    let members = with_trimmed(alloc, members, "message")?;
    with_trimmed(alloc, members, "messageExpression")
}

/// The members without null fields and without an empty message expression.
fn validation_fields(members: Map<String, Value>) -> Map<String, Value>
    ensures { members_view result.entries ≡ unless_empty_text (codes "messageExpression") (without_nulls validation_keys (members_view members.entries)) }
{
    unless_empty_text(without_validation_nulls(members), "messageExpression")
}

#[tactic(auto, unfolding(verdicts::specs::Reading::validation_keys))]
fn without_validation_nulls(members: Map<String, Value>) -> Map<String, Value>
    ensures { members_view result.entries ≡ without_nulls validation_keys (members_view members.entries) }
{
    let keys = ["expression", "message", "messageExpression", "reason"];
    without_nulls(members, &keys)
}
