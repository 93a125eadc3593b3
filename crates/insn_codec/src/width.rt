//! Operand widths.

ghost use Rattle.std.specs.Prelude.{◌≡◌, Some};
ghost use Rattle.insn_codec.specs.Mnemonics.{width_text};

use std::fmt;

/// The number of bits of its operands that an instruction uses.
#[derive(Clone, Copy, Debug, PartialEq, Eq)]
pub enum Width {
    /// The low 32 bits; arithmetic sets the high 32 bits of its result to 0.
    W32,
    /// All 64 bits.
    W64,
}

impl Width {
    ghost use Rattle.insn_codec.specs.Codes.{alu_class, atomic_opcode, atomic_width, jump_class};

    /// The class of arithmetic at this width, the opcode's low three bits (RFC 9669, section 3).
    pub(crate) fn alu_class(self) -> u8
        ensures { result ≡ alu_class self }
    {
        match self {
            Width::W32 => 4,
            Width::W64 => 7,
        }
    }

    /// The class of jumps that compare at this width, the opcode's low three bits (RFC 9669,
    /// section 3).
    pub(crate) fn jump_class(self) -> u8
        ensures { result ≡ jump_class self }
    {
        match self {
            Width::W32 => 6,
            Width::W64 => 5,
        }
    }

    /// The width of an atomic instruction's opcode, if it is one (RFC 9669, section 5.3).
    pub(crate) fn of_atomic(opcode: u8) -> Option<Width>
        ensures { result ≡ atomic_width opcode }
    {
        match opcode {
            0xc3 => Some(Width::W32),
            0xdb => Some(Width::W64),
            _ => None,
        }
    }

    /// The opcode of atomic instructions at this width (RFC 9669, section 5.3).
    pub(crate) fn atomic_opcode(self) -> u8
        ensures { result ≡ atomic_opcode self }
    {
        match self {
            Width::W32 => 0xc3,
            Width::W64 => 0xdb,
        }
    }

    /// The bits, as in a mnemonic.
    pub(crate) fn name(self) -> &'static str
        ensures { result.now ≡ width_text self }
    {
        match self {
            Width::W32 => "32",
            Width::W64 => "64",
        }
    }
}

impl fmt::Display for Width {
    ghost output = { λ x. Some (width_text x) };

    fn fmt<W: fmt::Write>(&self, f: &mut fmt::Formatter<W>) -> fmt::Result {
        let name = self.name();
        write!(f, "{name}")
    }
}
