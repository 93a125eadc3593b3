//! The audit annotation of a failure.
ghost use Rattle.std.specs.Prelude.{◌≡◌, ◌++◌, IfOk, OnOk, map, string_bytes};
ghost use Rattle.serde_json.specs.Data as json;
ghost use Rattle.serde_json.specs.View.{items_of, view};
ghost use Rattle.serde_json.specs.Written.{compact_text};
ghost use Rattle.cluster_response.specs.Annotations.{action_name, action_tree, annotation_text, failure_text, html_escape, html_safe, json_text, place_text, text_field};
ghost use Rattle.cluster_response.specs.Events.{audit_view};

use crate::audit::Audit;
use cluster_state::Action;
use serde_json::{Value, json};
use std::alloc::{AllocError, Global};

/// The value of the annotation.
#[tactic(auto, unfolding(crate::specs::Annotations::annotation_text))]
pub(crate) fn annotation_text(alloc: Global, audit: &Audit) -> Result<String, AllocError>
    ensures { IfOk result (λ t. string_bytes t ≡ annotation_text (audit_view audit.now)) }
{
    let text = failure_text(alloc, audit)?;
    html_safe(alloc, text.as_str())
}

fn html_safe(alloc: Global, text: &str) -> Result<String, AllocError>
    ensures { IfOk result (λ t. string_bytes t ≡ html_safe text.now) }
{
    let mut safe = String::new(alloc);
    for c in text.chars() {
        push_safe(&mut safe, c)?;
    }
    Ok(safe)
}

fn push_safe(safe: &mut String, c: char) -> Result<(), AllocError>
    ensures { OnOk result (string_bytes safe.new ≡ string_bytes safe.old ++ html_escape c) }
{
    match c {
        '<' => safe.push_str("\\u003c"),
        '>' => safe.push_str("\\u003e"),
        '&' => safe.push_str("\\u0026"),
        '\u{2028}' => safe.push_str("\\u2028"),
        '\u{2029}' => safe.push_str("\\u2029"),
        _ => safe.push(c),
    }
}

/// The failure as JSON.
#[tactic(auto, unfolding(crate::specs::Annotations::failure_text))]
fn failure_text(alloc: Global, audit: &Audit) -> Result<String, AllocError>
    ensures { IfOk result (λ t. string_bytes t ≡ failure_text (audit_view audit.now)) }
{
    let message = text_field(alloc, "[{\"message\":", audit.message.as_str())?;
    let policy = text_field(alloc, ",\"policy\":", audit.policy.as_str())?;
    let binding = text_field(alloc, ",\"binding\":", audit.binding.as_str())?;
    let place = place_text(alloc, audit)?;
    [
        message.as_str(),
        policy.as_str(),
        binding.as_str(),
        place.as_str(),
    ]
    .concat(alloc)
}

#[tactic(auto, unfolding(crate::specs::Annotations::text_field))]
fn text_field(alloc: Global, start: &str, text: &str) -> Result<String, AllocError>
    ensures { IfOk result (λ t. string_bytes t ≡ text_field start.now text.now) }
{
    let value = json_text(alloc, text)?;
    let mut field = String::from_str(alloc, start)?;
    field.push_str(value.as_str())?;
    Ok(field)
}

/// The last fields.
#[tactic(auto, unfolding(crate::specs::Annotations::place_text))]
fn place_text(alloc: Global, audit: &Audit) -> Result<String, AllocError>
    ensures { IfOk result (λ t. string_bytes t ≡ place_text (audit_view audit.now)) }
{
    let index = index_text(alloc, audit.index)?;
    let actions = actions_text(alloc, &audit.actions)?;
    [
        ",\"expressionIndex\":",
        index.as_str(),
        ",\"validationActions\":",
        actions.as_str(),
        "}]",
    ]
    .concat(alloc)
}

fn json_text(alloc: Global, text: &str) -> Result<String, AllocError>
    ensures { IfOk result (λ t. string_bytes t ≡ json_text text.now) }
{
    json!(in alloc; text)?.to_string(alloc)
}

fn index_text(alloc: Global, index: u64) -> Result<String, AllocError>
    ensures { IfOk result (λ t. string_bytes t ≡ compact_text (json.number (json.unsigned index))) }
{
    json!(in alloc; index)?.to_string(alloc)
}

fn actions_text(alloc: Global, actions: &[Action]) -> Result<String, AllocError>
    ensures { IfOk result (λ t. string_bytes t ≡ compact_text (json.array (items_of (map action_tree actions.now)))) }
{
    let value = actions_value(alloc, actions)?;
    value.to_string(alloc)
}

fn actions_value(alloc: Global, actions: &[Action]) -> Result<Value, AllocError>
    ensures { IfOk result (λ v. view v ≡ json.array (items_of (map action_tree actions.now))) }
{
    Ok(Value::Array(action_values(alloc, actions)?))
}

fn action_values(alloc: Global, actions: &[Action]) -> Result<Vec<Value>, AllocError>
    ensures { IfOk result (λ v. map view v.items ≡ map action_tree actions.now) }
{
    let mut names = Vec::new(alloc);
    for action in actions {
        names.push(action_value(alloc, *action)?)?;
    }
    Ok(names)
}

fn action_value(alloc: Global, action: Action) -> Result<Value, AllocError>
    ensures { IfOk result (λ v. view v ≡ action_tree action) }
{
    let name = action_name(action);
    json!(in alloc; name)
}

fn action_name(action: Action) -> &'static str
    ensures { result.now ≡ action_name action }
{
    match action {
        Action::Deny => "Deny",
        Action::Warn => "Warn",
        Action::Audit => "Audit",
    }
}
