//! The text of a state.
ghost use Rattle.std.specs.Prelude.{◌≡◌, ◌++◌, IfOk};
ghost use Rattle.bpf_machine.specs.Text.{move_text, registers_text};

use crate::answer_text::AnswerText;
use bpf_machine::Machine;
use guest_memory::Regions;
use std::alloc::{AllocError, Global};
use value_store::ValueStore;

/// The reply of a session to `r`, followed by that to a move to this step, if the machine is there:
/// the lines of r0 to r10, and that of the move.
pub fn registers_and_move<V: ValueStore, M: Regions>(
    alloc: Global,
    machine: &Machine<V, M>,
    step: u64,
) -> Result<Vec<u8>, AllocError>
    ensures { IfOk result (λ text. text.items ≡ registers_text machine.now ++ move_text step machine.now) }
{
    let mut registers = AnswerText::new();
    registers.push_registers(machine);
    let mut line = AnswerText::new();
    line.push_move(step, machine.pc(), machine.status());
    let mut text = Vec::from_slice(alloc, registers.as_slice())?;
    text.extend_from_slice(line.as_slice())?;
    Ok(text)
}
