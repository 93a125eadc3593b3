//! The validations in a policy's program.

ghost use Rattle.std.specs.Prelude.{◌≡◌, ◌<◌, ◌≤◌, ◌+◌, length, map, option_map, All, OnOk, IfOk};
ghost use Rattle.cel_macros.specs.CoreView.{core_view};
ghost use Rattle.policy_code.specs.Checked.{validation_trees};
ghost use Rattle.policy_code.specs.Emission.{with_message, with_result, with_validation, with_validations, FitsFrame, MayFit};
ghost use Rattle.verdicts.specs.Policy.{part_limit};

use super::pieces::{put_each, put_expression};
use super::tails::{DENIAL_SLOTS, LEAVE_SLOT, denial_code, if_true, leave_error, message_tail};
use super::validation_place::ValidationPlace;
use crate::checked_validation::CheckedValidation;
use cel_macros::Core;
use cel_types::Scope;
use codegen::Emitter;
use std::alloc::{AllocError, Global};
use verdicts::FailurePolicy;

/// Emits the validations.
pub(super) fn validations(
    alloc: Global,
    failure_policy: FailurePolicy,
    checked: &[CheckedValidation],
    scope: &Scope,
    emitter: &mut Emitter,
) -> Result<(), AllocError>
    requires expressions { All (λ v. FitsFrame (core_view v.expression)) checked.now }
    requires messages { All (λ v. MayFit (option_map core_view v.message)) checked.now }
    requires few { length checked.now ≤ part_limit }
    ensures { OnOk result (emitter.new ≡ with_validations failure_policy 0 scope.now emitter.old (map validation_trees checked.now)) }
{
    for (place, validation) in checked.iter().enumerate() {
        let which = ValidationPlace {
            failure_policy,
            place,
        };
        put_validation(alloc, which, validation, scope, emitter)?;
    }
    Ok(())
}

/// Emits one validation.
fn put_validation(
    alloc: Global,
    which: ValidationPlace,
    validation: &CheckedValidation,
    scope: &Scope,
    emitter: &mut Emitter,
) -> Result<(), AllocError>
    requires expression { FitsFrame (core_view validation.now.expression) }
    requires message { MayFit (option_map core_view validation.now.message) }
    requires few { which.place < part_limit }
    ensures { OnOk result (emitter.new ≡ with_validation which.failure_policy which.place scope.now emitter.old (validation_trees validation.now)) }
{
    emitter.count(1);
    put_expression(alloc, &validation.expression, scope, emitter)?;
    put_result(alloc, which, &validation.message, scope, emitter)
}

/// Emits what happens if the validation is not true: its word is stored, a denial is counted, and
/// its message expression, if it has one, is evaluated.
fn put_result(
    alloc: Global,
    which: ValidationPlace,
    message: &Option<Core>,
    scope: &Scope,
    emitter: &mut Emitter,
) -> Result<(), AllocError>
    requires message { MayFit (option_map core_view message.now) }
    requires few { which.place < part_limit }
    ensures { OnOk result (emitter.new ≡ with_result which.failure_policy which.place scope.now emitter.old (option_map core_view message.now)) }
{
    let first = emitter.put(&if_true(DENIAL_SLOTS))?;
    put_each(&denial_code(which.failure_policy, which.place), emitter)?;
    if let Some(core) = message {
        let last = put_message(alloc, which.place, core, scope, emitter)?;
        emitter.patch(first, &if_true(last - first));
        emitter.patch(
            first + LEAVE_SLOT,
            &leave_error(which.failure_policy, last - first - LEAVE_SLOT),
        );
    }
    Ok(())
}

/// Emits the message expression of the validation at this place, and returns the slot of the last
/// instruction.
fn put_message(
    alloc: Global,
    place: usize,
    core: &Core,
    scope: &Scope,
    emitter: &mut Emitter,
) -> Result<u64, AllocError>
    requires fits { FitsFrame (core_view core.now) }
    requires few { place < part_limit }
    ensures added { OnOk result (emitter.new ≡ with_message place scope.now emitter.old (core_view core.now)) }
    ensures last { IfOk result (λ slot. slot + 1 ≡ length emitter.new.code) }
{
    emitter.count(1);
    put_expression(alloc, core, scope, emitter)?;
    let tail = message_tail(place);
    put_each(&tail[..5], emitter)?;
    emitter.put(&tail[5])
}
