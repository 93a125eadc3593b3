//! Operand lists by their shapes.
ghost use Rattle.std.specs.Prelude.{◌≡◌, ◌<◌, ◌^◌, ℕ, ℤ, List, MatchOption};
ghost use Rattle.insn_codec.specs.Lines.{offset_text, operand_text, place_text, register_text, signed_decimal, wide_text};
ghost use Rattle.insn_codec.specs.declared.operand.Operand.{Operand};
ghost use Rattle.insn_codec.specs.declared.register.Register.{Register};
ghost use Rattle.assembler.specs.Forms.{operand_list};
ghost use Rattle.assembler.specs.Items.{IsLabel};
ghost use Rattle.assembler.specs.Parts.{NumeralIs, ValueIs};
ghost use Rattle.assembler.specs.Targets.{TargetIs};

use crate::text::cuts::cut;
use crate::text::numerals::{Numeral, immediate};
use crate::text::operands::{Value, operand};
use crate::text::places::place;
use crate::text::registers::register;
use crate::text::targets::{Target, target_of};
use crate::text::words::wide;
use insn_codec::Register;

/// A register and an operand, such as `r1, 5`.
pub(crate) fn register_operand(text: &str) -> Option<(Register, Value)>
    ensures { MatchOption result
        ((r : Register) (o : Operand) → text.now ≡ operand_list (register_text r) (operand_text o) → ⊥)
        (λ x. (o : Operand) × ValueIs x.1 o × (text.now ≡ operand_list (register_text x.0) (operand_text o))) }
{
    let (first, second) = cut(text)?;
    let dst = register(first)?;
    let value = operand(second)?;
    Some((dst, value))
}

/// Two registers, such as `r1, r2`.
pub(crate) fn two_registers(text: &str) -> Option<(Register, Register)>
    ensures { MatchOption result
        ((r s : Register) → text.now ≡ operand_list (register_text r) (register_text s) → ⊥)
        (λ x. text.now ≡ operand_list (register_text x.0) (register_text x.1)) }
{
    let (first, second) = cut(text)?;
    let dst = register(first)?;
    let src = register(second)?;
    Some((dst, src))
}

/// A register, an operand and the target of a jump, such as `r1, 5, +2`.
#[tactic(auto, using(crate::proofs::NameBytes::operand_lacks_comma))]
pub(crate) fn comparison_and_target(text: &str) -> Option<(Register, Value, Target<'_>)>
    ensures { MatchOption result
        (((r : Register) (o : Operand) (z : ℤ)
        → text.now ≡ operand_list (register_text r) (operand_list (operand_text o) (offset_text z)) → ⊥)
        × ((r : Register) (o : Operand) (name : List ℕ) → IsLabel name
        → text.now ≡ operand_list (register_text r) (operand_list (operand_text o) name) → ⊥))
        (λ x. (o : Operand) × (goal : List ℕ) × ValueIs x.1 o × TargetIs x.2 goal
        × (text.now ≡ operand_list (register_text x.0) (operand_list (operand_text o) goal))) }
{
    let (first, rest) = cut(text)?;
    let dst = register(first)?;
    let (second, third) = cut(rest)?;
    let value = operand(second)?;
    let target = target_of(third)?;
    Some((dst, value, target))
}

/// A register and a memory operand, such as `r1, [r2+8]`.
pub(crate) fn register_place(text: &str) -> Option<(Register, Register, Numeral)>
    ensures { MatchOption result
        ((r s : Register) (z : ℤ) → text.now ≡ operand_list (register_text r) (place_text s z) → ⊥)
        (λ x. (z : ℤ) × NumeralIs x.2 z × (text.now ≡ operand_list (register_text x.0) (place_text x.1 z))) }
{
    let (first, second) = cut(text)?;
    let dst = register(first)?;
    let (src, offset) = place(second)?;
    Some((dst, src, offset))
}

/// A memory operand and a number, such as `[r1+8], 5`.
pub(crate) fn place_number(text: &str) -> Option<(Register, Numeral, Numeral)>
    ensures { MatchOption result
        ((r : Register) (z n : ℤ) → text.now ≡ operand_list (place_text r z) (signed_decimal n) → ⊥)
        (λ x. (z : ℤ) × (n : ℤ) × NumeralIs x.1 z × NumeralIs x.2 n
        × (text.now ≡ operand_list (place_text x.0 z) (signed_decimal n))) }
{
    let (first, second) = cut(text)?;
    let (dst, offset) = place(first)?;
    let number = immediate(second)?;
    Some((dst, offset, number))
}

/// A memory operand and a register, such as `[r1+8], r2`.
pub(crate) fn place_register(text: &str) -> Option<(Register, Numeral, Register)>
    ensures { MatchOption result
        ((r s : Register) (z : ℤ) → text.now ≡ operand_list (place_text r z) (register_text s) → ⊥)
        (λ x. (z : ℤ) × NumeralIs x.1 z × (text.now ≡ operand_list (place_text x.0 z) (register_text x.2))) }
{
    let (first, second) = cut(text)?;
    let (dst, offset) = place(first)?;
    let src = register(second)?;
    Some((dst, offset, src))
}

/// A register and a 64-bit word, such as `r1, 0x0000000000000005`.
pub(crate) fn register_word(text: &str) -> Option<(Register, u64)>
    ensures { MatchOption result
        ((r : Register) (w : ℕ) → w < 2 ^ 64 → text.now ≡ operand_list (register_text r) (wide_text w) → ⊥)
        (λ x. text.now ≡ operand_list (register_text x.0) (wide_text x.1)) }
{
    let (first, second) = cut(text)?;
    let dst = register(first)?;
    let value = wide(second)?;
    Some((dst, value))
}
