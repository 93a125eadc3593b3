//! Second operands of instructions.

ghost use Rattle.std.specs.Prelude.{◌≡◌, Some};
ghost use Rattle.insn_codec.specs.Lines.{operand_text};

use crate::register::Register;
use crate::slot::Slot;
use crate::texts::NumberText;
use std::fmt;

/// The second operand of an instruction (RFC 9669, section 4).
#[derive(Clone, Copy, Debug, PartialEq, Eq)]
pub enum Operand {
    /// A signed number of 32 bits, from the slot's imm.
    Imm(i32),
    /// The content of the slot's src register.
    Reg(Register),
}

impl Operand {
    ghost use Rattle.insn_codec.specs.Codes.{operand_at, operand_flag, operand_imm, operand_src};

    /// The operand of a slot's flag and fields; `None` if the register's number is too high.
    pub(crate) fn at(slot: Slot) -> Option<Operand>
        ensures { result ≡ operand_at slot }
    {
        if slot.opcode / 8 % 2 == 0 {
            Some(Operand::Imm(slot.imm))
        } else {
            Some(Operand::Reg(Register::of(slot.src)?))
        }
    }

    /// The opcode's flag, whose bit is worth 8: 1 for a register operand, 0 for an immediate.
    pub(crate) fn flag(self) -> u8
        ensures { result ≡ operand_flag self }
    {
        match self {
            Operand::Imm(_) => 0,
            Operand::Reg(_) => 1,
        }
    }

    /// The value of the slot's src field.
    pub(crate) fn src(self) -> u8
        ensures { result ≡ operand_src self }
    {
        match self {
            Operand::Imm(_) => 0,
            Operand::Reg(register) => register.number(),
        }
    }

    /// The value of the slot's imm field.
    pub(crate) fn imm(self) -> i32
        ensures { result ≡ operand_imm self }
    {
        match self {
            Operand::Imm(imm) => imm,
            Operand::Reg(_) => 0,
        }
    }
}

impl fmt::Display for Operand {
    ghost output = { λ x. Some (operand_text x) };

    fn fmt<W: fmt::Write>(&self, f: &mut fmt::Formatter<W>) -> fmt::Result {
        match self {
            Operand::Imm(imm) => {
                let imm = NumberText(*imm);
                write!(f, "{imm}")
            }
            Operand::Reg(register) => write!(f, "{register}"),
        }
    }
}
