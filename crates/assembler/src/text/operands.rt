//! Operands.
ghost use Rattle.std.specs.Prelude.{◌≡◌, MatchOption};
ghost use Rattle.insn_codec.specs.Lines.{operand_text};
ghost use Rattle.insn_codec.specs.declared.operand.Operand.{Operand};
ghost use Rattle.assembler.specs.Parts.{ValueIs};

use crate::text::numerals::{Numeral, immediate};
use crate::text::registers::register;
use insn_codec::Register;

/// The second operand of an instruction.
#[derive(Clone, Copy)]
pub(crate) enum Value {
    /// A register.
    Register(Register),
    /// An immediate.
    Number(Numeral),
}

/// The operand with this text: a register's name, or a number.
pub(crate) fn operand(text: &str) -> Option<Value>
    ensures { MatchOption result ((o : Operand) → text.now ≡ operand_text o → ⊥) (λ v. (o : Operand) × ValueIs v o × (text.now ≡ operand_text o)) }
{
    if let Some(register) = register(text) {
        return Some(Value::Register(register));
    }
    let number = immediate(text)?;
    Some(Value::Number(number))
}
