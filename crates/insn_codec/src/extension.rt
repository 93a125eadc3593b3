//! Sign extensions.

ghost use Rattle.std.specs.Prelude.{◌≡◌, Some, pos};
ghost use Rattle.insn_codec.specs.Mnemonics.{extension_text};

use crate::width::Width;
use std::fmt;

/// The bits that a sign-extending move reads from the source and fills in the destination (RFC 9669, section 4.1).
#[derive(Clone, Copy, Debug, PartialEq, Eq)]
pub enum Extension {
    /// From the low 8 bits to 32; the high 32 bits become 0.
    From8To32,
    /// From the low 16 bits to 32; the high 32 bits become 0.
    From16To32,
    /// From the low 8 bits to 64.
    From8To64,
    /// From the low 16 bits to 64.
    From16To64,
    /// From the low 32 bits to 64.
    From32To64,
}

impl Extension {
    ghost use Rattle.insn_codec.specs.Families.{extension_bits, extension_of, extension_width};

    /// The extension to this width from this number of bits, which is in the slot's offset field.
    pub(crate) fn of(width: Width, bits: i16) -> Option<Extension>
        ensures { result ≡ extension_of width bits }
    {
        match (width, bits) {
            (Width::W32, 8) => Some(Extension::From8To32),
            (Width::W32, 16) => Some(Extension::From16To32),
            (Width::W64, 8) => Some(Extension::From8To64),
            (Width::W64, 16) => Some(Extension::From16To64),
            (Width::W64, 32) => Some(Extension::From32To64),
            _ => None,
        }
    }

    /// The number of bits that it reads, as in the slot's offset field.
    pub(crate) fn bits(self) -> i16
        ensures { result ≡ pos (extension_bits self) }
    {
        match self {
            Extension::From8To32 | Extension::From8To64 => 8,
            Extension::From16To32 | Extension::From16To64 => 16,
            Extension::From32To64 => 32,
        }
    }

    /// The width that it fills.
    pub(crate) fn width(self) -> Width
        ensures { result ≡ extension_width self }
    {
        match self {
            Extension::From8To32 | Extension::From16To32 => Width::W32,
            Extension::From8To64 | Extension::From16To64 | Extension::From32To64 => Width::W64,
        }
    }

    /// The bits that it reads and fills, as in a mnemonic.
    pub(crate) fn name(self) -> &'static str
        ensures { result.now ≡ extension_text self }
    {
        match self {
            Extension::From8To32 => "8to32",
            Extension::From16To32 => "16to32",
            Extension::From8To64 => "8to64",
            Extension::From16To64 => "16to64",
            Extension::From32To64 => "32to64",
        }
    }
}

impl fmt::Display for Extension {
    ghost output = { λ x. Some (extension_text x) };

    fn fmt<W: fmt::Write>(&self, f: &mut fmt::Formatter<W>) -> fmt::Result {
        let name = self.name();
        write!(f, "{name}")
    }
}
