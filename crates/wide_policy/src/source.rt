//! The policy in a document.

ghost use Rattle.std.specs.Prelude.{◌≡◌, codes, option_and_then, option_map};
ghost use Rattle.serde_json.specs.Find.{get};
ghost use Rattle.serde_json.specs.View.{items_view, view};
ghost use Rattle.wide_policy.specs.WideDocuments.{has_audit_annotations, has_no_items, is_absent_list, is_empty_list, is_empty_text, ReadsSource, wide_policy_in, wide_policy_of};

use crate::normal::normal_document;
use crate::wide_policy_error::WidePolicyError;
use json_fields::{equals_string, is_absent, parse_document};
use policy_glue::{Policy, PolicyError};
use serde_json::Value;
use std::alloc::Global;

/// The policy in a document, its texts without the blanks around them.
#[tactic(auto, unfolding(crate::specs::WideDocuments::wide_policy_in))]
pub(crate) fn source(alloc: Global, document: &[u8]) -> Result<Policy, WidePolicyError>
    ensures { ReadsSource (wide_policy_in document.now) result }
{
    match parse_document(alloc, document)? {
        Some(value) => source_of(alloc, value),
        None => Err(WidePolicyError::Unread(PolicyError::NotJson)),
    }
}

#[tactic(auto, unfolding(crate::specs::WideDocuments::wide_policy_of))]
fn source_of(alloc: Global, value: Value) -> Result<Policy, WidePolicyError>
    ensures { ReadsSource (wide_policy_of (view value)) result }
{
    if has_audit_annotations(&value) {
        return Err(WidePolicyError::HasAuditAnnotations);
    }
    let normal = normal_document(alloc, value)?;
    Ok(Policy::of_value(alloc, &normal)?)
}

/// Whether the document is a policy with audit annotations.
fn has_audit_annotations(value: &Value) -> bool
    ensures { result ≡ has_audit_annotations (view value.now) }
{
    equals_string(value.get("kind"), "ValidatingAdmissionPolicy")
        && !is_absent_list(annotations(value))
}

fn annotations(value: &Value) -> Option<&Value>
    ensures { option_map (λ v. view v.now) result ≡ option_and_then (get (codes "auditAnnotations")) (get (codes "spec") (view value.now)) }
{
    match value.get("spec") {
        Some(spec) => spec.get("auditAnnotations"),
        None => None,
    }
}

/// Whether a list is missing, null or empty.
fn is_absent_list(field: Option<&Value>) -> bool
    ensures { result ≡ is_absent_list (option_map (λ v. view v.now) field.entry) }
{
    is_absent(field) || is_empty_list(field)
}

/// Whether a list is empty.
fn has_no_items(items: &[Value]) -> bool
    ensures { result ≡ has_no_items (items_view items.now) }
{
    match items {
        [_, ..] => false,
        [] => true,
    }
}

/// Whether a field is an empty list.
pub(crate) fn is_empty_list(field: Option<&Value>) -> bool
    ensures { result ≡ is_empty_list (option_map (λ v. view v.now) field.entry) }
{
    match field {
        Some(Value::Array(items)) => has_no_items(items.as_slice()),
        _ => false,
    }
}

/// Whether a field is the empty text.
pub(crate) fn is_empty_text(field: Option<&Value>) -> bool
    ensures { result ≡ is_empty_text (option_map (λ v. view v.now) field.entry) }
{
    match field {
        Some(Value::String(text)) => text.as_str().is_empty(),
        _ => false,
    }
}
