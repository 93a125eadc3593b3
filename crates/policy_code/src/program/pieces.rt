//! Emits instructions, expressions and variables.

ghost use Rattle.std.specs.Prelude.{◌≡◌, ◌≤◌, OnOk};
ghost use Rattle.cel_macros.specs.CoreView.{core_view};
ghost use Rattle.cel_measures.specs.Measures.{depth};
ghost use Rattle.cel_types.specs.Declarations.{depths_of};
ghost use Rattle.codegen.specs.Added.{with_expression, with_variable};
ghost use Rattle.codegen.specs.Emitted.{with_piece};
ghost use Rattle.policy_code.specs.Emission.{FitsFrame};
ghost use Rattle.expression_code.specs.Limits.{variable_depth_limit};

use cel_macros::Core;
use cel_types::Scope;
use codegen::{CodeError, Emitter, expression, variable};
use insn_codec::Insn;
use std::alloc::{AllocError, Global};

/// Appends the instructions.
pub(super) fn put_each(insns: &[Insn], emitter: &mut Emitter) -> Result<(), AllocError>
    ensures { OnOk result (emitter.new ≡ with_piece emitter.old insns.now) }
{
    for insn in insns {
        emitter.put(insn)?;
    }
    Ok(())
}

/// Appends the code of the expression.
pub(super) fn put_expression(
    alloc: Global,
    core: &Core,
    scope: &Scope,
    emitter: &mut Emitter,
) -> Result<(), AllocError>
    requires { FitsFrame (core_view core.now) }
    ensures { OnOk result (emitter.new ≡ with_expression emitter.old scope.now (core_view core.now)) }
{
    match expression(alloc, core, scope, emitter) {
        Ok(()) => Ok(()),
        Err(CodeError::Memory) => Err(AllocError),
        Err(_) => unreachable!(),
    }
}

/// Appends the routine of the next variable.
pub(super) fn put_variable(
    alloc: Global,
    core: &Core,
    scope: &Scope,
    emitter: &mut Emitter,
) -> Result<(), AllocError>
    requires fits { FitsFrame (core_view core.now) }
    requires shallow { depth (core_view core.now) (depths_of scope.now) ≤ variable_depth_limit }
    ensures { OnOk result (emitter.new ≡ with_variable emitter.old scope.now (core_view core.now)) }
{
    match variable(alloc, core, scope, emitter) {
        Ok(()) => Ok(()),
        Err(CodeError::Memory) => Err(AllocError),
        Err(_) => unreachable!(),
    }
}
