//! Variables and match conditions.

ghost use Rattle.std.specs.Prelude.{◌≡◌, map};
ghost use Rattle.policy_glue.specs.Policy.{named_view};
ghost use Rattle.wide_policy.specs.Returns.{ReturnsCondition, ReturnsConditions, ReturnsVariable, ReturnsVariables};

use crate::expression::part_at;
use crate::part_scope::PartScope;
use crate::wide_policy_error::WidePolicyError;
use policy_glue::{NamedExpression, PartKind};
use std::alloc::Global;

/// The variables with the texts of their translations, and their kinds. Each may use the earlier ones.
pub(crate) fn variables(
    alloc: Global,
    named: &[NamedExpression],
    wrapped: bool,
) -> Result<(PartScope, Vec<NamedExpression>), WidePolicyError>
    ensures { ReturnsVariables wrapped (map named_view named.now) result }
{
    let mut scope = PartScope::new(alloc, wrapped);
    let mut taken = Vec::new(alloc);
    for (place, variable) in named.iter().enumerate() {
        add_variable(alloc, variable, place, &mut scope, &mut taken)?;
    }
    Ok((scope, taken))
}

/// Adds the variable at this place. It may use those in scope.
fn add_variable(
    alloc: Global,
    variable: &NamedExpression,
    place: usize,
    scope: &mut PartScope,
    taken: &mut Vec<NamedExpression>,
) -> Result<(), WidePolicyError>
    ensures { ReturnsVariable (named_view variable.now) place scope.old scope.new (map named_view taken.old.items) (map named_view taken.new.items) result }
{
    let text = variable.expression.as_str();
    let (kind, expression) = part_at(alloc, PartKind::Variable, place, text, scope)?;
    let name = String::from_str(alloc, variable.name.as_str())?;
    taken.push(NamedExpression { name, expression })?;
    scope.add(variable.name.as_str(), kind)?;
    Ok(())
}

/// The match conditions with the texts of their translations. They may use no variable, and `namespaceObject` is null.
pub(crate) fn conditions(
    alloc: Global,
    named: &[NamedExpression],
    wrapped: bool,
) -> Result<Vec<NamedExpression>, WidePolicyError>
    ensures { ReturnsConditions wrapped (map named_view named.now) result }
{
    let scope = PartScope::new(alloc, wrapped);
    let mut taken = Vec::new(alloc);
    for (place, condition) in named.iter().enumerate() {
        let condition = condition_at(alloc, place, condition, &scope)?;
        taken.push(condition)?;
    }
    Ok(taken)
}

/// The condition at this place.
fn condition_at(
    alloc: Global,
    place: usize,
    condition: &NamedExpression,
    scope: &PartScope,
) -> Result<NamedExpression, WidePolicyError>
    ensures { ReturnsCondition place scope.now (named_view condition.now) result }
{
    let text = condition.expression.as_str();
    let (_, expression) = part_at(alloc, PartKind::Condition, place, text, scope)?;
    let name = String::from_str(alloc, condition.name.as_str())?;
    Ok(NamedExpression { name, expression })
}
