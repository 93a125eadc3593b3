//! Reversal of a word's bytes.
ghost use Rattle.std.specs.Prelude.{◌≡◌};
ghost use Rattle.bpf_word.specs.Bytes.{swap_of};

use insn_codec::SwapWidth;

/// The low bits of a word, `width` of them, with their bytes reversed; the bits
/// above are zero (RFC 9669, section 4.2).
#[tactic(auto, unfolding(crate::specs::Bytes::swap_of))]
pub fn swap(width: SwapWidth, word: u64) -> u64
    ensures { result ≡ swap_of width word }
{
    match width {
        SwapWidth::Bits16 => u64::from(((word % 0x1_0000) as u16).swap_bytes()),
        SwapWidth::Bits32 => u64::from(((word % 0x1_0000_0000) as u32).swap_bytes()),
        SwapWidth::Bits64 => word.swap_bytes(),
    }
}
