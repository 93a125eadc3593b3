//! Range checks of numbers.
ghost use Rattle.std.specs.Prelude.{◌≡◌, ℤ, FitsSigned, MatchOption};
ghost use Rattle.std.specs.Int.{w16, w32};
ghost use Rattle.insn_codec.specs.Spelling.{IsOperand};
ghost use Rattle.insn_codec.specs.declared.operand.Operand.{Operand};
ghost use Rattle.assembler.specs.Parts.{NumeralIs, ValueIs};

use crate::text::numerals::Numeral;
use crate::text::operands::Value;
use insn_codec::Operand;

/// The number, if it fits 16 bits.
pub(crate) fn short(numeral: Numeral) -> Option<i16>
    ensures { MatchOption result ((z : ℤ) → NumeralIs numeral z → FitsSigned w16 z → ⊥) (λ n. FitsSigned w16 n × ((z : ℤ) → NumeralIs numeral z → z ≡ n)) }
{
    match numeral {
        Numeral::Small(number) => i16::try_from(number).ok(),
        Numeral::Wide => None,
    }
}

/// The number, if it fits 32 bits.
pub(crate) fn long(numeral: Numeral) -> Option<i32>
    ensures { MatchOption result ((z : ℤ) → NumeralIs numeral z → FitsSigned w32 z → ⊥) (λ n. FitsSigned w32 n × ((z : ℤ) → NumeralIs numeral z → z ≡ n)) }
{
    match numeral {
        Numeral::Small(number) => Some(number),
        Numeral::Wide => None,
    }
}

/// The operand, if it is a register or a number that fits 32 bits.
pub(crate) fn operand_in_range(value: Value) -> Option<Operand>
    ensures { MatchOption result ((o : Operand) → ValueIs value o → IsOperand o → ⊥) (λ p. IsOperand p × ((o : Operand) → ValueIs value o → o ≡ p)) }
{
    match value {
        Value::Register(register) => Some(Operand::Reg(register)),
        Value::Number(numeral) => {
            let number = long(numeral)?;
            Some(Operand::Imm(number))
        }
    }
}
