//! Sizes of sign-extending loads.

ghost use Rattle.std.specs.Prelude.{◌≡◌, Some};
ghost use Rattle.insn_codec.specs.Mnemonics.{signed_size_text};

use std::fmt;

/// The number of bytes that a sign-extending load reads (RFC 9669, section 5.2).
#[derive(Clone, Copy, Debug, PartialEq, Eq)]
pub enum SignedSize {
    /// One byte.
    B = 2,
    /// Two bytes.
    H = 1,
    /// Four bytes.
    W = 0,
}

impl SignedSize {
    ghost use Rattle.insn_codec.specs.Families.{signed_size_code, signed_size_of};

    /// The size with this code, bits 3 and 4 of the opcode.
    pub(crate) fn of(code: u8) -> Option<SignedSize>
        ensures { result ≡ signed_size_of code }
    {
        match code {
            0 => Some(SignedSize::W),
            1 => Some(SignedSize::H),
            2 => Some(SignedSize::B),
            _ => None,
        }
    }

    /// The code of the size.
    pub(crate) fn code(self) -> u8
        ensures { result ≡ signed_size_code self }
    {
        self as u8
    }

    /// The letter of a mnemonic.
    pub(crate) fn name(self) -> &'static str
        ensures { result.now ≡ signed_size_text self }
    {
        match self {
            SignedSize::B => "b",
            SignedSize::H => "h",
            SignedSize::W => "w",
        }
    }
}

impl fmt::Display for SignedSize {
    ghost output = { λ x. Some (signed_size_text x) };

    fn fmt<W: fmt::Write>(&self, f: &mut fmt::Formatter<W>) -> fmt::Result {
        let name = self.name();
        write!(f, "{name}")
    }
}
