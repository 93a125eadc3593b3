//! Comparisons of conditional jumps.

ghost use Rattle.std.specs.Prelude.{◌≡◌, Some};
ghost use Rattle.insn_codec.specs.Mnemonics.{comparison_text};

use std::fmt;

/// The condition of a branch, on the destination and the operand (RFC 9669, section 4.3).
#[derive(Clone, Copy, Debug, PartialEq, Eq)]
pub enum Comparison {
    /// They are equal.
    Eq = 0x1,
    /// The destination is greater, unsigned.
    Gt = 0x2,
    /// The destination is greater or equal, unsigned.
    Ge = 0x3,
    /// Some bit is set in both.
    Set = 0x4,
    /// They are not equal.
    Ne = 0x5,
    /// The destination is greater, signed.
    Sgt = 0x6,
    /// The destination is greater or equal, signed.
    Sge = 0x7,
    /// The destination is less, unsigned.
    Lt = 0xa,
    /// The destination is less or equal, unsigned.
    Le = 0xb,
    /// The destination is less, signed.
    Slt = 0xc,
    /// The destination is less or equal, signed.
    Sle = 0xd,
}

impl Comparison {
    ghost use Rattle.insn_codec.specs.Families.{comparison_code, comparison_of};

    /// The comparison with this code, the opcode's high four bits.
    pub(crate) fn of(code: u8) -> Option<Comparison>
        ensures { result ≡ comparison_of code }
    {
        match code {
            0x1 => Some(Comparison::Eq),
            0x2 => Some(Comparison::Gt),
            0x3 => Some(Comparison::Ge),
            0x4 => Some(Comparison::Set),
            0x5 => Some(Comparison::Ne),
            0x6 => Some(Comparison::Sgt),
            0x7 => Some(Comparison::Sge),
            0xa => Some(Comparison::Lt),
            0xb => Some(Comparison::Le),
            0xc => Some(Comparison::Slt),
            0xd => Some(Comparison::Sle),
            _ => None,
        }
    }

    /// The code of the comparison.
    pub(crate) fn code(self) -> u8
        ensures { result ≡ comparison_code self }
    {
        self as u8
    }

    /// The name in a mnemonic.
    pub(crate) fn name(self) -> &'static str
        ensures { result.now ≡ comparison_text self }
    {
        match self {
            Comparison::Eq => "jeq",
            Comparison::Gt => "jgt",
            Comparison::Ge => "jge",
            Comparison::Set => "jset",
            Comparison::Ne => "jne",
            Comparison::Sgt => "jsgt",
            Comparison::Sge => "jsge",
            Comparison::Lt => "jlt",
            Comparison::Le => "jle",
            Comparison::Slt => "jslt",
            Comparison::Sle => "jsle",
        }
    }
}

impl fmt::Display for Comparison {
    ghost output = { λ x. Some (comparison_text x) };

    fn fmt<W: fmt::Write>(&self, f: &mut fmt::Formatter<W>) -> fmt::Result {
        let name = self.name();
        write!(f, "{name}")
    }
}
