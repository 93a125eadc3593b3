//! Decodes words to instructions and encodes instructions as words.
ghost use Rattle.std.specs.Prelude.{◌%◌, ◌≡◌, ◌≢◌, ◌↔◌, drop, None, Some, IfSome, IsTrue};
ghost use Rattle.std.specs.Int.{w32, from_le_bytes};
ghost use Rattle.insn_codec.specs.Spelled.{spelled};
ghost use Rattle.insn_codec.specs.Spelling.{BeginsWith, IsInsn, more_bytes, on_hand, second_bytes, spelling};
ghost use Rattle.insn_codec.specs.declared.insn.Insn.{Insn};

use crate::candidate::candidate;
use crate::insn::Insn;
use crate::slot::Slot;

/// The instruction at the first word, if its slots encode one (RFC 9669, section 3). A word is a slot's eight bytes,
/// read little-endian; `second` is the next slot's, if there is one.
pub fn decode(first: u64, second: Option<u64>) -> Option<Insn>
    ensures is { result ≡ spelled (on_hand first second) }
    ensures found { IfSome result (λ i. BeginsWith (spelling i) (on_hand first second)) }
    ensures only { (i : Insn) → IsInsn i → BeginsWith (spelling i) (on_hand first second) → result ≡ Some i }

    // The second word is used only for opcode 0x18.
    ensures alone { first % 256 ≢ 0x18 → result ≡ spelled (on_hand first None) }
{
    let insn = candidate(Slot::of_word(first), high_part(second))?;
    // The fields that the instruction does not use must be 0.
    if spells(&insn, first, second) {
        Some(insn)
    } else {
        None
    }
}

/// The bits of the second slot's imm; 0 without a second slot.
fn high_part(second: Option<u64>) -> u32
    ensures { result ≡ from_le_bytes w32 (drop 4 (more_bytes second)) }
{
    match second {
        Some(word) => {
            let [_, _, _, _, imm_0, imm_1, imm_2, imm_3] = word.to_le_bytes();
            u32::from_le_bytes([imm_0, imm_1, imm_2, imm_3])
        }
        None => 0,
    }
}

/// Whether the words begin with the instruction's encoding.
fn spells(insn: &Insn, first: u64, second: Option<u64>) -> bool
    ensures { IsTrue result ↔ BeginsWith (spelling insn.now) (on_hand first second) }
{
    let (its_first, its_second) = encode(insn);
    its_first == first
        && match (its_second, second) {
            (None, _) => true,
            (Some(expected), Some(word)) => expected == word,
            (Some(_), None) => false,
        }
}

/// The words of the instruction's one or two slots.
pub fn encode(insn: &Insn) -> (u64, Option<u64>)
    ensures { on_hand result.0 result.1 ≡ spelling insn.now }
{
    (insn.first_slot().word(), second_word(insn))
}

/// The word of the second slot, which only a wide load has: the high half of its value as imm.
fn second_word(insn: &Insn) -> Option<u64>
    ensures { more_bytes result ≡ second_bytes insn.now }
{
    match *insn {
        Insn::LoadWide { value, .. } => {
            let high = (value / 0x1_0000_0000) as u32;
            Some(Slot::with(0, 0, 0, 0, high.cast_signed()).word())
        }
        _ => None,
    }
}

/// Decodes the instruction's own encoding, which gives the instruction again.
pub fn round_trip(insn: &Insn) -> Option<Insn>
    ensures { result ≡ Some insn.now }
{
    insn.in_range();
    let (first, second) = encode(insn);
    decode(first, second)
}
