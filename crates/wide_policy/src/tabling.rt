//! Whether a table of indices is long enough for a policy.

ghost use Rattle.std.specs.Prelude.{◌≡◌, List, Option, IfOk, map, option_map, string_bytes};
ghost use Rattle.std.specs.List.{list_all};
ghost use Rattle.policy_glue.specs.Policy.{named_view, policy_view, validation_view};
ghost use Rattle.wide_reader.specs.Answers.{IsWide};
ghost use Rattle.wide_reader.specs.Tree.{Wide as WideTree};
ghost use Rattle.wide_policy.specs.Carrying.{EachPair};
ghost use Rattle.wide_policy.specs.NarrowTrees.{are_variables_tabled, is_message_tabled, is_policy_tabled, is_tabled, is_validation_tabled, known_variables, with_known_variable};
ghost use Rattle.wide_policy.specs.Reading.{IsWideMessage, IsWideNamed, IsWideTree, IsWideValidation, IsWideVariable};
ghost use Rattle.wide_policy.specs.Returns.{ReturnsTabled};
ghost use Rattle.wide_policy.specs.WideTrees.{WidePolicyTree, WideValidationTree, WideVariableTree};

use crate::policy::WidePolicy;
use policy_glue::{NamedExpression, Parts, Policy, Validation};
use std::alloc::Global;
use wide_indices::KnownVariables;
use wide_reader::WideReadError;

/// Whether the ranges in an expression are narrow. The text is read anew.
fn is_tabled(alloc: Global, text: &str, known: &KnownVariables) -> Result<bool, WideReadError>
    ensures { IfOk result (λ b. (e : WideTree) → IsWide text.now e → b ≡ is_tabled known.now e) }
{
    let wide = wide_reader::read(alloc, text)?;
    let found = known.has_narrow_ranges(&wide);
    drop(wide);
    Ok(found)
}

/// Whether they are in each of the conditions.
fn are_conditions_tabled(
    alloc: Global,
    given: &[NamedExpression],
    known: &KnownVariables,
) -> Result<bool, WideReadError>
    ensures { IfOk result (λ b. (es : List WideTree) → EachPair IsWideNamed (map named_view given.now) es → b ≡ list_all (is_tabled known.now) es) }
{
    match given {
        [] => Ok(true),
        [first, rest @ ..] => {
            let one = is_tabled(alloc, first.expression.as_str(), known)?;
            let others = are_conditions_tabled(alloc, rest, known)?;
            Ok(one && others)
        }
    }
}

/// Whether they are in a variable, which is added to those that are known.
fn is_variable_tabled(
    alloc: Global,
    variable: &NamedExpression,
    known: &mut KnownVariables,
) -> Result<bool, WideReadError>
    ensures { IfOk result (λ b. (v : WideVariableTree) → IsWideVariable (named_view variable.now) v → (b ≡ is_tabled known.old v.expression) × (known.new ≡ with_known_variable known.old v)) }
{
    let wide = wide_reader::read(alloc, variable.expression.as_str())?;
    let found = known.has_narrow_ranges(&wide);
    let added = known.add(variable.name.as_str(), &wide);
    drop(wide);
    added?;
    Ok(found)
}

/// Whether they are in each of the variables, which are added to those that are known.
fn are_variables_tabled(
    alloc: Global,
    given: &[NamedExpression],
    known: &mut KnownVariables,
) -> Result<bool, WideReadError>
    ensures { IfOk result (λ b. (vs : List WideVariableTree) → EachPair IsWideVariable (map named_view given.now) vs → (b ≡ are_variables_tabled known.old vs) × (known.new ≡ known_variables known.old vs)) }
{
    match given {
        [] => Ok(true),
        [first, rest @ ..] => {
            let one = is_variable_tabled(alloc, first, known)?;
            let others = are_variables_tabled(alloc, rest, known)?;
            Ok(one && others)
        }
    }
}

/// Whether they are in a message expression, if there is one.
fn is_message_tabled(
    alloc: Global,
    text: &Option<String>,
    known: &KnownVariables,
) -> Result<bool, WideReadError>
    ensures { IfOk result (λ b. (m : Option WideTree) → IsWideMessage (option_map string_bytes text.now) m → b ≡ is_message_tabled known.now m) }
{
    match text {
        Some(text) => is_tabled(alloc, text.as_str(), known),
        None => Ok(true),
    }
}

/// Whether they are in a validation.
fn is_validation_tabled(
    alloc: Global,
    validation: &Validation,
    known: &KnownVariables,
) -> Result<bool, WideReadError>
    ensures { IfOk result (λ b. (r : WideValidationTree) → IsWideValidation (validation_view validation.now) r → b ≡ is_validation_tabled known.now r) }
{
    let one = is_tabled(alloc, validation.expression.as_str(), known)?;
    let message = is_message_tabled(alloc, &validation.message_expression, known)?;
    Ok(one && message)
}

/// Whether they are in each of the validations.
fn are_validations_tabled(
    alloc: Global,
    given: &[Validation],
    known: &KnownVariables,
) -> Result<bool, WideReadError>
    ensures { IfOk result (λ b. (rs : List WideValidationTree) → EachPair IsWideValidation (map validation_view given.now) rs → b ≡ list_all (is_validation_tabled known.now) rs) }
{
    match given {
        [] => Ok(true),
        [first, rest @ ..] => {
            let one = is_validation_tabled(alloc, first, known)?;
            let others = are_validations_tabled(alloc, rest, known)?;
            Ok(one && others)
        }
    }
}

/// Whether they are in all expressions of a policy.
fn are_parts_tabled(alloc: Global, parts: &Parts) -> Result<bool, WideReadError>
    ensures { IfOk result (λ b. (w : WidePolicyTree) → IsWideTree (policy_view parts.now) w → b ≡ is_policy_tabled w) }
{
    let mut known = KnownVariables::new(alloc);
    let conditions = are_conditions_tabled(alloc, parts.conditions.as_slice(), &known)?;
    let variables = are_variables_tabled(alloc, parts.variables.as_slice(), &mut known)?;
    let validations = are_validations_tabled(alloc, parts.validations.as_slice(), &known)?;
    Ok(conditions && (variables && validations))
}

/// The policy, if a table as long as the documents are wide, and at least 16, is long enough for it.
pub(crate) fn tabled(alloc: Global, policy: WidePolicy) -> Result<Option<WidePolicy>, WideReadError>
    ensures { IfOk result (λ q. ReturnsTabled policy q) }
{
    let WidePolicy {
        source,
        profile,
        left_out,
        wrapped,
    } = policy;
    let parts = source.into_parts();
    let judged = are_parts_tabled(alloc, &parts);
    let policy = WidePolicy {
        source: Policy::of_parts(parts),
        profile,
        left_out,
        wrapped,
    };
    match judged {
        Ok(true) => Ok(Some(policy)),
        Ok(false) => {
            drop(policy);
            Ok(None)
        }
        Err(error) => {
            drop(policy);
            Err(error)
        }
    }
}
