//! Checks a policy's expressions.

ghost use Rattle.std.specs.Prelude.{◌≡◌, None, Ok, map, option_map, string_bytes};
ghost use Rattle.cel_macros.specs.CoreView.{core_view};
ghost use Rattle.policy_glue.specs.Checked.{AddsVariable, Checks, ChecksConditions, ChecksValidation, ChecksValidations, ChecksVariables, SortsMessage};
ghost use Rattle.verdicts.specs.Policy.{named_view, validation_view, policy_view};

use crate::compile_error::CompileError;
use crate::judging::{part_judged, variable_judged};
use crate::named_expression::NamedExpression;
use crate::part_kind::PartKind;
use crate::parts::Parts;
use crate::validation::Validation;
use cel_macros::Core;
use cel_types::Scope;
use policy_code::{Checked, CheckedValidation};
use std::alloc::Global;
use verdicts::Policy;

/// The policy with its expressions checked, or its first refusal. Variables come first, then match
/// conditions, then validations, each list in order; a message expression comes directly after its
/// validation.
pub(crate) fn checked(alloc: Global, policy: &Policy) -> Result<Checked, CompileError>
    ensures { Checks policy.now result }
{
    parts_checked(alloc, policy.parts())
}

fn parts_checked(alloc: Global, parts: &Parts) -> Result<Checked, CompileError>
    ensures { Checks (policy_view parts.now) result }
{
    let (scope, variables) = variables(alloc, parts.variables.as_slice())?;
    let conditions = conditions(alloc, parts.conditions.as_slice())?;
    let validations = validations(alloc, parts.validations.as_slice(), &scope)?;
    Ok(Checked {
        scope,
        variables,
        conditions,
        validations,
    })
}

/// Checks the variables. Each may use the earlier ones.
fn variables(alloc: Global, named: &[NamedExpression]) -> Result<(Scope, Vec<Core>), CompileError>
    ensures { ChecksVariables (map named_view named.now) result }
{
    let mut scope = Scope::new(alloc);
    let mut cores = Vec::new(alloc);
    for (place, variable) in named.iter().enumerate() {
        add_variable(alloc, variable, place, &mut scope, &mut cores)?;
    }
    Ok((scope, cores))
}

/// Adds the variable at this place. It may use those in scope.
fn add_variable(
    alloc: Global,
    variable: &NamedExpression,
    place: usize,
    scope: &mut Scope,
    cores: &mut Vec<Core>,
) -> Result<(), CompileError>
    ensures { AddsVariable (named_view variable.now) place scope.old scope.new (map core_view cores.old.items) (map core_view cores.new.items) result }
{
    let text = variable.expression.as_str();
    let (core, cel_type, depth) = variable_judged(alloc, place, text, scope)?;
    cores.push(core)?;
    scope.add(variable.name.as_str(), cel_type, depth)?;
    Ok(())
}

/// Checks the match conditions. They may use no variable.
fn conditions(alloc: Global, named: &[NamedExpression]) -> Result<Vec<Core>, CompileError>
    ensures { ChecksConditions (map named_view named.now) result }
{
    let scope = Scope::new(alloc);
    let mut cores = Vec::new(alloc);
    for (place, condition) in named.iter().enumerate() {
        let text = condition.expression.as_str();
        let core = part_judged(alloc, PartKind::Condition, place, text, &scope)?;
        cores.push(core)?;
    }
    Ok(cores)
}

/// Checks the validations. They may use the variables of the scope.
fn validations(
    alloc: Global,
    validations: &[Validation],
    scope: &Scope,
) -> Result<Vec<CheckedValidation>, CompileError>
    ensures { ChecksValidations scope.now (map validation_view validations.now) result }
{
    let mut checked = Vec::new(alloc);
    for (place, validation) in validations.iter().enumerate() {
        let validation = validation_at(alloc, place, validation, scope)?;
        checked.push(validation)?;
    }
    Ok(checked)
}

/// The validation at this place.
fn validation_at(
    alloc: Global,
    place: usize,
    validation: &Validation,
    scope: &Scope,
) -> Result<CheckedValidation, CompileError>
    ensures { ChecksValidation scope.now place (validation_view validation.now) result }
{
    let text = validation.expression.as_str();
    let expression = part_judged(alloc, PartKind::Validation, place, text, scope)?;
    let message = message_at(alloc, place, &validation.message_expression, scope)?;
    Ok(CheckedValidation {
        expression,
        message,
    })
}

/// The message expression of the validation at this place, if it has one.
fn message_at(
    alloc: Global,
    place: usize,
    text: &Option<String>,
    scope: &Scope,
) -> Result<Option<Core>, CompileError>
    ensures sorts { SortsMessage scope.now place (option_map string_bytes text.now) result }
    ensures none { option_map string_bytes text.now ≡ None → result ≡ Ok None }
{
    match text {
        Some(text) => Ok(Some(part_judged(alloc, PartKind::Message, place, text.as_str(), scope)?)),
        None => Ok(None),
    }
}
