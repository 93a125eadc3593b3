//! Jumps with the offsets to their labels.

ghost use Rattle.std.specs.Prelude.{◌≡◌, ◌≤◌, IfSome};
ghost use Rattle.assembler.specs.SecondPass.{jump_at, offset_to};
ghost use Rattle.insn_codec.specs.Limits.{slot_limit};

use crate::asm_error::AsmError;
use crate::lines::jump::Jump;
use insn_codec::Statement;

/// The offset from a jump in this slot to the target: the target's slot minus the slot after the jump.
fn offset_between(slot: u32, target: u32) -> i32
    requires slot { slot ≤ slot_limit }
    requires target { target ≤ slot_limit }
    ensures { result ≡ offset_to slot target }
{
    target as i32 - slot as i32 - 1
}

/// The jump in this slot, on the line with this number, to its label's slot.
///
/// # Errors
///
/// `UnknownLabel` if the label has no slot, `JumpTooFar` if it is too far away.
pub(crate) fn jump_to(
    jump: Jump,
    slot: u32,
    number: usize,
    target: Option<u32>,
) -> Result<Option<Statement>, AsmError>
    requires slot { slot ≤ slot_limit }
    requires target { IfSome target (λ t. t ≤ slot_limit) }
    ensures { result ≡ jump_at number slot jump target }
{
    let Some(target) = target else {
        return Err(AsmError::UnknownLabel(number));
    };
    match jump.with_offset(offset_between(slot, target)) {
        Some(statement) => Ok(Some(statement)),
        None => Err(AsmError::JumpTooFar(number)),
    }
}
