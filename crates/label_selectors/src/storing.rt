//! The requirements that the API server stores.
ghost use Rattle.std.specs.Prelude.{◌≡◌, map, string_bytes};
ghost use Rattle.std.specs.List.{list_all};
ghost use Rattle.label_selectors.specs.Storing as specs;
ghost use Rattle.label_selectors.specs.Storing.{checked_label, checked_requirement, takes};

use crate::grammar::{is_label_key, is_label_value};
use crate::operator::Operator;
use crate::selector_error::SelectorError;

/// Checks a requirement of `matchExpressions`; returns its operator.
///
/// # Errors
///
/// The first reason why the API server would not store it: its key, its operator or the number of
/// its values, or a value.
#[tactic(auto, unfolding(crate::specs::Storing::checked_requirement))]
pub fn check_requirement(
    key: &str,
    operator: &str,
    values: &[String],
) -> Result<Operator, SelectorError>
    ensures { result ≡ checked_requirement key.now operator.now (map string_bytes values.now) }
{
    if !is_label_key(key) {
        return Err(SelectorError::InvalidKey);
    }
    match Operator::named(operator) {
        Some(operator) if takes(operator, values) => {
            if are_label_values(values) {
                Ok(operator)
            } else {
                Err(SelectorError::InvalidValue)
            }
        }
        Some(_) | None => Err(SelectorError::InvalidOperator),
    }
}

/// Checks an entry of `matchLabels`.
///
/// # Errors
///
/// The first reason why the API server would not store it: its key or its value.
#[tactic(auto, unfolding(crate::specs::Storing::checked_label))]
pub fn check_label(key: &str, value: &str) -> Result<(), SelectorError>
    ensures { result ≡ checked_label key.now value.now }
{
    if !is_label_key(key) {
        return Err(SelectorError::InvalidKey);
    }
    if !is_label_value(value) {
        return Err(SelectorError::InvalidValue);
    }
    Ok(())
}

/// Whether the operator allows this number of values.
fn takes(operator: Operator, values: &[String]) -> bool
    ensures { result ≡ takes operator (map string_bytes values.now) }
{
    match operator {
        Operator::In | Operator::NotIn => !values.is_empty(),
        Operator::Exists | Operator::DoesNotExist => values.is_empty(),
    }
}

fn are_label_values(values: &[String]) -> bool
    ensures { result ≡ list_all specs.is_label_value (map string_bytes values.now) }
{
    all_are_label_values(values)
}

fn all_are_label_values(values: &[String]) -> bool
    ensures { result ≡ list_all (λ v. specs.is_label_value (string_bytes v)) values.now }
{
    values.iter().all(|value| is_label_value(value.as_str()))
}
