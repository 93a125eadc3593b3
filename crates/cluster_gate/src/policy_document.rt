//! Documents of policies as they are compiled.
ghost use Rattle.std.specs.Prelude.{◌≡◌, ◌∷◌, codes, IfOk};
ghost use Rattle.serde_json.specs.View.{items_view, members_view, view};
ghost use Rattle.json_fields.specs.Members.{each_changed, in_array, in_object, without_nulls};
ghost use Rattle.policy_glue.specs.Reading.{spec_keys, validation_keys};
ghost use Rattle.cluster_gate.specs.CompiledDocuments.{compiled_document, compiled_validation, policy_members, spec_members};

use json_fields::{member, others, put_if, without_nulls};
use serde_json::{Map, Value};
use std::alloc::{AllocError, Global};

/// The document of a policy without its `status`, and without the fields that are null.
pub(crate) fn compiled_document(alloc: Global, document: &Value) -> Result<Value, AllocError>
    ensures { IfOk result (λ v. view v ≡ compiled_document (view document.now)) }
{
    match document.clone()? {
        Value::Object(members) => Ok(Value::Object(policy_members(alloc, members)?)),
        other => Ok(other),
    }
}

fn policy_members(
    alloc: Global,
    members: Map<String, Value>,
) -> Result<Map<String, Value>, AllocError>
    ensures { IfOk result (λ m. members_view m.entries ≡ policy_members (members_view members.entries)) }
{
    let members = others(members, "status");
    let spec = match member(&members, "spec") {
        Some(spec) => Some(compiled_spec(alloc, spec)?),
        None => None,
    };
    put_if(alloc, members, "spec", spec)
}

fn compiled_spec(alloc: Global, spec: &Value) -> Result<Value, AllocError>
    ensures { IfOk result (λ v. view v ≡ in_object spec_members (view spec.now)) }
{
    match spec.clone()? {
        Value::Object(members) => Ok(Value::Object(spec_members(alloc, members)?)),
        other => Ok(other),
    }
}

fn spec_members(
    alloc: Global,
    members: Map<String, Value>,
) -> Result<Map<String, Value>, AllocError>
    ensures { IfOk result (λ m. members_view m.entries ≡ spec_members (members_view members.entries)) }
{
    let members = without_spec_nulls(members);
    let validations = match member(&members, "validations") {
        Some(validations) => Some(compiled_validations(validations)?),
        None => None,
    };
    put_if(alloc, members, "validations", validations)
}

#[tactic(auto, unfolding(verdicts::specs::Reading::spec_keys))]
fn without_spec_nulls(members: Map<String, Value>) -> Map<String, Value>
    ensures { members_view result.entries ≡ without_nulls (codes "auditAnnotations" ∷ spec_keys) (members_view members.entries) }
{
    let keys = [
        "auditAnnotations",
        "failurePolicy",
        "matchConditions",
        "matchConstraints",
        "paramKind",
        "validations",
        "variables",
    ];
    without_nulls(members, &keys)
}

fn compiled_validations(validations: &Value) -> Result<Value, AllocError>
    ensures { IfOk result (λ v. view v ≡ in_array compiled_validation (view validations.now)) }
{
    match validations {
        Value::Array(items) => Ok(Value::Array(each_validation(items)?)),
        _ => validations.clone(),
    }
}

fn each_validation(items: &Vec<Value>) -> Result<Vec<Value>, AllocError>
    ensures { IfOk result (λ v. items_view v.items ≡ each_changed compiled_validation (items_view items.now.items)) }
{
    let mut changed = Vec::with_capacity(*items.allocator(), items.len())?;
    for item in items {
        changed.push(compiled_validation(item)?)?;
    }
    Ok(changed)
}

fn compiled_validation(validation: &Value) -> Result<Value, AllocError>
    ensures { IfOk result (λ v. view v ≡ compiled_validation (view validation.now)) }
{
    match validation.clone()? {
        Value::Object(members) => Ok(Value::Object(without_validation_nulls(members))),
        other => Ok(other),
    }
}

#[tactic(auto, unfolding(verdicts::specs::Reading::validation_keys))]
fn without_validation_nulls(members: Map<String, Value>) -> Map<String, Value>
    ensures { members_view result.entries ≡ without_nulls validation_keys (members_view members.entries) }
{
    let keys = ["expression", "message", "messageExpression", "reason"];
    without_nulls(members, &keys)
}
