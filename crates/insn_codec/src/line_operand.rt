//! Operands of an instruction's line.
ghost use Rattle.std.specs.Prelude.{Some};
ghost use Rattle.insn_codec.specs.LineOperands.{operand_shown};

use crate::operand::Operand;
use crate::register::Register;
use crate::texts::{AddressText, OffsetText, WideText};
use std::fmt;

/// One operand, as a line shows it.
#[derive(Clone, Copy)]
pub(crate) enum LineOperand {
    /// A register's name, or a number in decimal digits.
    Operand(Operand),
    /// An offset in slots, with its sign.
    Offset(i32),
    /// The address of an access, between square brackets.
    Place(Register, i16),
    /// A 64-bit number in hex digits.
    Wide(u64),
}

impl fmt::Display for LineOperand {
    ghost output = { λ o. Some (operand_shown o) };

    fn fmt<W: fmt::Write>(&self, f: &mut fmt::Formatter<W>) -> fmt::Result {
        match *self {
            LineOperand::Operand(operand) => write!(f, "{operand}"),
            LineOperand::Offset(offset) => {
                let offset = OffsetText(offset);
                write!(f, "{offset}")
            }
            LineOperand::Place(base, offset) => {
                let address = AddressText(base, offset);
                write!(f, "[{address}]")
            }
            LineOperand::Wide(value) => {
                let value = WideText(value);
                write!(f, "{value}")
            }
        }
    }
}
