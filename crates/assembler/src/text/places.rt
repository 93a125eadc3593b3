//! Places in memory.
ghost use Rattle.std.specs.Prelude.{◌≡◌, ℤ, MatchOption};
ghost use Rattle.insn_codec.specs.declared.register.Register.{Register};
ghost use Rattle.insn_codec.specs.Lines.{address_text, place_text};
ghost use Rattle.assembler.specs.Parts.{NumeralIs};

use crate::text::cuts::cut_at_sign;
use crate::text::numerals::{Numeral, offset};
use crate::text::registers::register;
use insn_codec::Register;

/// A memory operand such as `[r1+8]`: the register and the offset.
pub(crate) fn place(text: &str) -> Option<(Register, Numeral)>
    ensures { MatchOption result ((r : Register) (z : ℤ) → text.now ≡ place_text r z → ⊥) (λ x. (z : ℤ) × NumeralIs x.1 z × (text.now ≡ place_text x.0 z)) }
{
    let after = text.strip_prefix('[')?;
    let inside = after.strip_suffix(']')?;
    address(inside)
}

/// A register and an offset, such as `r1+8`.
fn address(text: &str) -> Option<(Register, Numeral)>
    ensures { MatchOption result ((r : Register) (z : ℤ) → text.now ≡ address_text r z → ⊥) (λ x. (z : ℤ) × NumeralIs x.1 z × (text.now ≡ address_text x.0 z)) }
{
    let (front, back) = cut_at_sign(text)?;
    let base = register(front)?;
    let distance = offset(back)?;
    Some((base, distance))
}
