//! Arithmetic operations.

ghost use Rattle.std.specs.Prelude.{◌≡◌, Some, pos};
ghost use Rattle.insn_codec.specs.Mnemonics.{alu_text};

use std::fmt;

/// What an arithmetic instruction writes to its destination (RFC 9669, section 4.1).
#[derive(Clone, Copy, Debug, PartialEq, Eq)]
pub enum AluOp {
    /// The sum of the destination and the operand.
    Add,
    /// The difference: the destination minus the operand.
    Sub,
    /// The product.
    Mul,
    /// The unsigned quotient; 0 if the operand is 0.
    Div,
    /// The signed quotient, truncated toward 0; 0 if the operand is 0.
    Sdiv,
    /// The bits that are set in either.
    Or,
    /// The bits that are set in both.
    And,
    /// The destination, shifted left by the operand.
    Lsh,
    /// The destination, shifted right by the operand; zeros come in from the left.
    Rsh,
    /// The unsigned remainder; the destination if the operand is 0.
    Mod,
    /// The signed remainder; the destination if the operand is 0.
    Smod,
    /// The bits that are set in exactly one of both.
    Xor,
    /// The operand.
    Mov,
    /// The destination, shifted right by the operand; copies of its sign come in from the left.
    Arsh,
}

impl AluOp {
    ghost use Rattle.insn_codec.specs.Families.{alu_code, alu_of, alu_offset};

    /// The operation with this code, the opcode's high four bits, and this offset, which
    /// distinguishes signed from unsigned division.
    pub(crate) fn of(code: u8, offset: i16) -> Option<AluOp>
        ensures { result ≡ alu_of code offset }
    {
        match (code, offset) {
            (0x0, 0) => Some(AluOp::Add),
            (0x1, 0) => Some(AluOp::Sub),
            (0x2, 0) => Some(AluOp::Mul),
            (0x3, 0) => Some(AluOp::Div),
            (0x3, 1) => Some(AluOp::Sdiv),
            (0x4, 0) => Some(AluOp::Or),
            (0x5, 0) => Some(AluOp::And),
            (0x6, 0) => Some(AluOp::Lsh),
            (0x7, 0) => Some(AluOp::Rsh),
            (0x9, 0) => Some(AluOp::Mod),
            (0x9, 1) => Some(AluOp::Smod),
            (0xa, 0) => Some(AluOp::Xor),
            (0xb, 0) => Some(AluOp::Mov),
            (0xc, 0) => Some(AluOp::Arsh),
            _ => None,
        }
    }

    /// The code of the operation.
    pub(crate) fn code(self) -> u8
        ensures { result ≡ alu_code self }
    {
        match self {
            AluOp::Add => 0x0,
            AluOp::Sub => 0x1,
            AluOp::Mul => 0x2,
            AluOp::Div | AluOp::Sdiv => 0x3,
            AluOp::Or => 0x4,
            AluOp::And => 0x5,
            AluOp::Lsh => 0x6,
            AluOp::Rsh => 0x7,
            AluOp::Mod | AluOp::Smod => 0x9,
            AluOp::Xor => 0xa,
            AluOp::Mov => 0xb,
            AluOp::Arsh => 0xc,
        }
    }

    /// The slot's offset field: 1 for signed division and remainder, else 0.
    pub(crate) fn offset(self) -> i16
        ensures { result ≡ pos (alu_offset self) }
    {
        match self {
            AluOp::Sdiv | AluOp::Smod => 1,
            _ => 0,
        }
    }

    /// The name in a mnemonic.
    pub(crate) fn name(self) -> &'static str
        ensures { result.now ≡ alu_text self }
    {
        match self {
            AluOp::Add => "add",
            AluOp::Sub => "sub",
            AluOp::Mul => "mul",
            AluOp::Div => "div",
            AluOp::Sdiv => "sdiv",
            AluOp::Or => "or",
            AluOp::And => "and",
            AluOp::Lsh => "lsh",
            AluOp::Rsh => "rsh",
            AluOp::Mod => "mod",
            AluOp::Smod => "smod",
            AluOp::Xor => "xor",
            AluOp::Mov => "mov",
            AluOp::Arsh => "arsh",
        }
    }
}

impl fmt::Display for AluOp {
    ghost output = { λ x. Some (alu_text x) };

    fn fmt<W: fmt::Write>(&self, f: &mut fmt::Formatter<W>) -> fmt::Result {
        let name = self.name();
        write!(f, "{name}")
    }
}
