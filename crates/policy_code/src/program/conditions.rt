//! The match conditions in a policy's program.

ghost use Rattle.std.specs.Prelude.{◌≡◌, map, All, OnOk};
ghost use Rattle.cel_macros.specs.CoreView.{core_view};
ghost use Rattle.policy_code.specs.Emission.{with_condition, with_conditions, with_decided, FitsFrame};

use super::pieces::{put_each, put_expression};
use super::tails::{condition_tail, decided_tail};
use cel_macros::Core;
use cel_types::Scope;
use codegen::Emitter;
use std::alloc::{AllocError, Global};
use verdicts::FailurePolicy;

/// Emits the conditions.
pub(super) fn conditions(
    alloc: Global,
    failure_policy: FailurePolicy,
    cores: &[Core],
    emitter: &mut Emitter,
) -> Result<(), AllocError>
    requires { All (λ core. FitsFrame (core_view core)) cores.now }
    ensures { OnOk result (emitter.new ≡ with_conditions failure_policy emitter.old (map core_view cores.now)) }
{
    for core in cores {
        put_condition(alloc, failure_policy, core, emitter)?;
    }
    Ok(())
}

/// Emits the code that follows the conditions, if there are any: it ends the program if they decide
/// the outcome.
pub(super) fn decided(cores: &[Core], emitter: &mut Emitter) -> Result<(), AllocError>
    ensures { OnOk result (emitter.new ≡ with_decided emitter.old (map core_view cores.now)) }
{
    if cores.is_empty() {
        return Ok(());
    }
    put_each(&decided_tail(), emitter)
}

/// Emits one condition. It may use no variable.
fn put_condition(
    alloc: Global,
    failure_policy: FailurePolicy,
    core: &Core,
    emitter: &mut Emitter,
) -> Result<(), AllocError>
    requires { FitsFrame (core_view core.now) }
    ensures { OnOk result (emitter.new ≡ with_condition failure_policy emitter.old (core_view core.now)) }
{
    let scope = Scope::new(alloc);
    emitter.count(1);
    put_expression(alloc, core, &scope, emitter)?;
    put_each(&condition_tail(failure_policy), emitter)
}
