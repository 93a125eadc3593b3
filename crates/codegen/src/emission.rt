//! Adds expressions and variables to an emitter.

ghost use Rattle.std.specs.Prelude.{◌≡◌, ◌≢◌, ◌<◌, ◌≤◌, ◌↔◌, OnOk, OnErr, IsErrOf};
ghost use Rattle.cel_macros.specs.CoreView.{core_view};
ghost use Rattle.cel_measures.specs.Measures as measures;
ghost use Rattle.cel_types.specs.Declarations.{depths_of};
ghost use Rattle.codegen.specs.Added.{with_expression, with_variable};
ghost use Rattle.codegen.specs.Emission.{EmitsExpression, EmitsVariable};
ghost use Rattle.codegen.specs.Layer.{EmitsMeaning, EmitsRoutine};
ghost use Rattle.expression_code.specs.Limits.{word_limit, variable_depth_limit};

use crate::code_error::CodeError;
use crate::emitter::{Addition, Emitter};
use cel_macros::Core;
use cel_measures::{depth, need};
use cel_types::Scope;
use expression_code::limits::{VARIABLE_DEPTH_LIMIT, WORD_LIMIT};
use std::alloc::Global;

/// Adds the expression's code, its texts and its nodes to the emitter. The variables of the scope
/// are the first ones of the emitter, in order. Beyond 512 nodes, or after more than 0x7fff_0000
/// slots, the code is left out, and `finish` returns `TooManyNodes`. An image has 65,536 slots.
///
/// # Errors
///
/// `NeedsTooManyWords` if the expression needs more than 60 words of the stack, `Memory` if an
/// allocation fails. After an error the emitter is unchanged.
#[tactic(auto, using(tree_code::proofs::Layer::expression_gives, crate::proofs::Layer::emits_expression, crate::proofs::Layer::low_each))]
pub fn expression(
    alloc: Global,
    core: &Core,
    scope: &Scope,
    emitter: &mut Emitter,
) -> Result<(), CodeError>
    ensures added { OnOk result (emitter.new ≡ with_expression emitter.old scope.now (core_view core.now)) }
    ensures fits { OnOk result (measures.need (core_view core.now) ≤ word_limit) }
    ensures gives { OnOk result (EmitsMeaning emitter.old scope.now (core_view core.now)) }
    ensures emits { OnOk result (EmitsExpression emitter.old emitter.new scope.now (core_view core.now)) }
    ensures refused { OnErr result (emitter.new ≡ emitter.old) }
    ensures g1 { IsErrOf result CodeError.NeedsTooManyWords ↔ (word_limit < measures.need (core_view core.now)) }
    ensures g2 { result ≢ Err CodeError.VariableTooDeep }
    ensures g3 { result ≢ Err CodeError.TooManyNodes }
    ensures g4 { result ≢ Err CodeError.TooManyTextBytes }
{
    if need(core) > WORD_LIMIT {
        return Err(CodeError::NeedsTooManyWords);
    }
    emitter.add(alloc, Addition::Expression, core, scope.variables())?;
    Ok(())
}

/// Adds the next variable to the emitter: the routine of its expression with its memo, its texts,
/// and 1 more than its nodes. The variables of the scope are the first ones of the emitter, in
/// order. Beyond 512 nodes, or after more than 0x7fff_0000 slots, the routine is left out, and
/// `finish` returns `TooManyNodes`. An image has 65,536 slots.
///
/// # Errors
///
/// `NeedsTooManyWords` if the expression needs more than 60 words of the stack, then
/// `VariableTooDeep` if the variable's depth is above 6. `Memory` if an allocation fails. After an
/// error the emitter is unchanged.
#[tactic(auto, using(crate::proofs::Layer::emits_variable, crate::proofs::Layer::low_each))]
pub fn variable(
    alloc: Global,
    core: &Core,
    scope: &Scope,
    emitter: &mut Emitter,
) -> Result<(), CodeError>
    ensures added { OnOk result (emitter.new ≡ with_variable emitter.old scope.now (core_view core.now)) }
    ensures fits { OnOk result (measures.need (core_view core.now) ≤ word_limit) }
    ensures shallow { OnOk result (measures.depth (core_view core.now) (depths_of scope.now) ≤ variable_depth_limit) }
    ensures joins { OnOk result (EmitsRoutine emitter.old scope.now (core_view core.now)) }
    ensures emits { OnOk result (EmitsVariable emitter.old emitter.new scope.now (core_view core.now)) }
    ensures refused { OnErr result (emitter.new ≡ emitter.old) }
    ensures g1 { IsErrOf result CodeError.NeedsTooManyWords ↔ (word_limit < measures.need (core_view core.now)) }
    ensures g2 { IsErrOf result CodeError.VariableTooDeep ↔ ((measures.need (core_view core.now) ≤ word_limit) × (variable_depth_limit < measures.depth (core_view core.now) (depths_of scope.now))) }
    ensures g3 { result ≢ Err CodeError.TooManyNodes }
    ensures g4 { result ≢ Err CodeError.TooManyTextBytes }
{
    if need(core) > WORD_LIMIT {
        return Err(CodeError::NeedsTooManyWords);
    }
    if depth(core, scope) > VARIABLE_DEPTH_LIMIT {
        return Err(CodeError::VariableTooDeep);
    }
    emitter.add(alloc, Addition::Variable, core, scope.variables())?;
    Ok(())
}
