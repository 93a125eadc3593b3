//! Targets of jumps.
ghost use Rattle.std.specs.Prelude.{◌≡◌, ℤ, MatchOption};
ghost use Rattle.insn_codec.specs.Lines.{offset_text};
ghost use Rattle.assembler.specs.Items.{IsLabel};
ghost use Rattle.assembler.specs.Targets.{TargetIs};

use crate::text::names::is_name;
use crate::text::numerals::{Numeral, offset};

/// The target of a jump.
#[derive(Clone, Copy)]
pub(crate) enum Target<'a> {
    /// An offset in slots, from the next one on.
    Offset(Numeral),
    /// The slot of this label.
    Name(&'a str),
}

/// The target with this text: an offset or a name.
pub(crate) fn target_of(text: &str) -> Option<Target<'_>>
    ensures { MatchOption result (((z : ℤ) → text.now ≡ offset_text z → ⊥) × (IsLabel text.now → ⊥)) (λ t. TargetIs t text.now) }
{
    if is_name(text) {
        return Some(Target::Name(text));
    }
    let numeral = offset(text)?;
    Some(Target::Offset(numeral))
}
