//! Emits the program of a policy.

ghost use Rattle.std.specs.Prelude.{◌≡◌, IfOk};
ghost use Rattle.policy_code.specs.Checked.{IsChecked};
ghost use Rattle.policy_code.specs.Emission.{emitted, EmitsProgram, HasTrees};
ghost use Rattle.policy_code.specs.Trees.{PolicyTree};

mod conditions;
mod pieces;
mod tails;
mod validation_place;
mod validations;
mod variables;

use crate::checked::Checked;
use crate::program_error::ProgramError;
use codegen::{CodeError, Emitter};
use conditions::{conditions, decided};
use pieces::put_each;
use std::alloc::{AllocError, Global};
use tails::outcome_tail;
use validations::validations;
use variables::variables;
use verdicts::FailurePolicy;

/// The bytes of the policy's program, and those of the texts that it uses.
///
/// # Errors
///
/// `TooManyNodes` if the policy has too many nodes, else `TooManyTextBytes` if its texts have too
/// many bytes. `Memory` if an allocation fails.
pub fn program_of(
    alloc: Global,
    failure_policy: FailurePolicy,
    checked: &Checked,
) -> Result<(Vec<u8>, Vec<u8>), ProgramError>
    requires { HasTrees checked.now }
    ensures { (t : PolicyTree) → IsChecked checked.now t → EmitsProgram failure_policy t result }
{
    let emitter = emitted(alloc, failure_policy, checked)?;
    match emitter.finish() {
        Ok(program) => Ok(program),
        Err(CodeError::TooManyNodes) => Err(ProgramError::TooManyNodes),
        Err(CodeError::TooManyTextBytes) => Err(ProgramError::TooManyTextBytes),
        Err(CodeError::Memory) => Err(ProgramError::Memory),
        Err(_) => unreachable!(),
    }
}

/// Emits the whole policy.
fn emitted(
    alloc: Global,
    failure_policy: FailurePolicy,
    checked: &Checked,
) -> Result<Emitter, AllocError>
    requires { HasTrees checked.now }
    ensures { IfOk result (λ e. e ≡ emitted failure_policy checked.now) }
{
    let mut emitter = Emitter::new(alloc);
    emitter.count(1);
    let scope = &checked.scope;
    let declared = scope.variables();
    variables(alloc, declared, checked.variables.as_slice(), &mut emitter)?;
    let cores = checked.conditions.as_slice();
    conditions(alloc, failure_policy, cores, &mut emitter)?;
    decided(cores, &mut emitter)?;
    validations(
        alloc,
        failure_policy,
        checked.validations.as_slice(),
        scope,
        &mut emitter,
    )?;
    put_each(&outcome_tail(), &mut emitter)?;
    Ok(emitter)
}
