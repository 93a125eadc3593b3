//! The actions of a binding.
ghost use Rattle.std.specs.Prelude.{◌≡◌, ◌&&◌, option_map};
ghost use Rattle.cluster_state.specs.declared.action.Action.TheVariants.{Deny, Warn};
ghost use Rattle.serde_json.specs.View.{items_view, view};
ghost use Rattle.json_fields.specs.Fields.{each, list_of};
ghost use Rattle.admission_documents.specs.Fields.{ReadsField};
ghost use Rattle.cluster_state.specs.Bindings.{action_in, actions_of, are_actions, are_distinct, has_action};

use crate::action::Action;
use admission_documents::FieldError;
use serde_json::Value;
use std::alloc::Global;

/// The actions, at least one.
#[tactic(auto, unfolding(crate::specs::Bindings::actions_of))]
pub(crate) fn actions(alloc: Global, value: Option<&Value>) -> Result<Vec<Action>, FieldError>
    ensures { ReadsField (λ v. v.items) (actions_of (option_map (λ v. view v.now) value.entry)) result }
{
    let actions = list_of(alloc, value)?;
    if are_actions(&actions) {
        return Ok(actions);
    }
    Err(FieldError::InvalidField)
}

fn list_of(alloc: Global, value: Option<&Value>) -> Result<Vec<Action>, FieldError>
    ensures { ReadsField (λ v. v.items) (list_of action_in (option_map (λ v. view v.now) value.entry)) result }
{
    match value {
        None => Ok(Vec::new(alloc)),
        Some(Value::Array(items)) => actions_in(alloc, items),
        Some(_) => Err(FieldError::InvalidField),
    }
}

fn actions_in(alloc: Global, items: &Vec<Value>) -> Result<Vec<Action>, FieldError>
    ensures { ReadsField (λ v. v.items) (each action_in (items_view items.now.items)) result }
{
    let mut actions = Vec::new(alloc);
    for item in items {
        match action_in(item) {
            Some(action) => actions.push(action)?,
            None => return Err(FieldError::InvalidField),
        }
    }
    Ok(actions)
}

fn action_in(value: &Value) -> Option<Action>
    ensures { result ≡ action_in (view value.now) }
{
    match value {
        Value::String(name) => Action::named(name.as_str()),
        _ => None,
    }
}

/// Whether there are one to three different actions, without Deny and Warn together.
#[tactic(auto, unfolding(crate::specs::Bindings::are_actions))]
fn are_actions(actions: &[Action]) -> bool
    ensures { result ≡ are_actions actions.now }
{
    !actions.is_empty() && actions.len() <= 3 && are_distinct(actions) && !denies_and_warns(actions)
}

fn denies_and_warns(actions: &[Action]) -> bool
    ensures { result ≡ (has_action Deny actions.now && has_action Warn actions.now) }
{
    has_action(Action::Deny, actions) && has_action(Action::Warn, actions)
}

fn has_action(action: Action, actions: &[Action]) -> bool
    ensures { result ≡ has_action action actions.now }
{
    actions.iter().any(|other| action.is(*other))
}

fn are_distinct(actions: &[Action]) -> bool
    ensures { result ≡ are_distinct actions.now }
{
    match actions {
        [] => true,
        [first, rest @ ..] => !has_action(*first, rest) && are_distinct(rest),
    }
}
