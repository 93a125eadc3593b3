//! Sizes of loads and stores.

ghost use Rattle.std.specs.Prelude.{◌≡◌, Some};
ghost use Rattle.insn_codec.specs.Mnemonics.{size_text};

use std::fmt;

/// The number of bytes that a load or a store moves (RFC 9669, section 5).
#[derive(Clone, Copy, Debug, PartialEq, Eq)]
pub enum Size {
    /// One byte.
    B = 2,
    /// Two bytes.
    H = 1,
    /// Four bytes.
    W = 0,
    /// Eight bytes.
    Dw = 3,
}

impl Size {
    ghost use Rattle.insn_codec.specs.Families.{size_code, size_of_code};

    /// The size with this code, bits 3 and 4 of the opcode.
    pub(crate) fn of(code: u8) -> Option<Size>
        ensures { result ≡ size_of_code code }
    {
        match code {
            0 => Some(Size::W),
            1 => Some(Size::H),
            2 => Some(Size::B),
            3 => Some(Size::Dw),
            _ => None,
        }
    }

    /// The code of the size.
    pub(crate) fn code(self) -> u8
        ensures { result ≡ size_code self }
    {
        self as u8
    }

    /// The letters of a mnemonic.
    pub(crate) fn name(self) -> &'static str
        ensures { result.now ≡ size_text self }
    {
        match self {
            Size::B => "b",
            Size::H => "h",
            Size::W => "w",
            Size::Dw => "dw",
        }
    }
}

impl fmt::Display for Size {
    ghost output = { λ x. Some (size_text x) };

    fn fmt<W: fmt::Write>(&self, f: &mut fmt::Formatter<W>) -> fmt::Result {
        let name = self.name();
        write!(f, "{name}")
    }
}
