//! Widths of byte swaps.

ghost use Rattle.std.specs.Prelude.{◌≡◌, Some, pos};
ghost use Rattle.insn_codec.specs.Mnemonics.{swap_text};

use std::fmt;

/// The number of low bits that a byte swap orders (RFC 9669, section 4.2); the others become 0.
#[derive(Clone, Copy, Debug, PartialEq, Eq)]
pub enum SwapWidth {
    /// 16 bits.
    Bits16 = 16,
    /// 32 bits.
    Bits32 = 32,
    /// All 64 bits.
    Bits64 = 64,
}

impl SwapWidth {
    ghost use Rattle.insn_codec.specs.Families.{swap_bits, swap_of};

    /// The width with this number of bits, which is in the slot's imm field.
    pub(crate) fn of(bits: i32) -> Option<SwapWidth>
        ensures { result ≡ swap_of bits }
    {
        match bits {
            16 => Some(SwapWidth::Bits16),
            32 => Some(SwapWidth::Bits32),
            64 => Some(SwapWidth::Bits64),
            _ => None,
        }
    }

    /// The number of bits, as in the slot's imm field.
    pub(crate) fn bits(self) -> i32
        ensures { result ≡ pos (swap_bits self) }
    {
        self as i32
    }

    /// The bits that it orders, as in a mnemonic.
    pub(crate) fn name(self) -> &'static str
        ensures { result.now ≡ swap_text self }
    {
        match self {
            SwapWidth::Bits16 => "16",
            SwapWidth::Bits32 => "32",
            SwapWidth::Bits64 => "64",
        }
    }
}

impl fmt::Display for SwapWidth {
    ghost output = { λ x. Some (swap_text x) };

    fn fmt<W: fmt::Write>(&self, f: &mut fmt::Formatter<W>) -> fmt::Result {
        let name = self.name();
        write!(f, "{name}")
    }
}
