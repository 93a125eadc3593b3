//! Registers.

ghost use Rattle.std.specs.Prelude.{◌≡◌, Some};
ghost use Rattle.insn_codec.specs.Lines.{register_text};

use std::fmt;

/// One of the machine's eleven registers, each of 64 bits, by its number in a slot (RFC 9669,
/// section 3).
#[derive(Clone, Copy, Debug, PartialEq, Eq)]
pub enum Register {
    R0,
    R1,
    R2,
    R3,
    R4,
    R5,
    R6,
    R7,
    R8,
    R9,
    R10,
}

impl Register {
    ghost use Rattle.insn_codec.specs.Codes.{register_number, register_of};

    /// The register with the number in a slot's four-bit field, if it is at most 10.
    pub fn of(number: u8) -> Option<Register>
        ensures { result ≡ register_of number }
    {
        match number {
            0 => Some(Register::R0),
            1 => Some(Register::R1),
            2 => Some(Register::R2),
            3 => Some(Register::R3),
            4 => Some(Register::R4),
            5 => Some(Register::R5),
            6 => Some(Register::R6),
            7 => Some(Register::R7),
            8 => Some(Register::R8),
            9 => Some(Register::R9),
            10 => Some(Register::R10),
            _ => None,
        }
    }

    /// The register's number in a slot, from 0 to 10.
    pub fn number(self) -> u8
        ensures { result ≡ register_number self }
    {
        self as u8
    }
}

impl fmt::Display for Register {
    ghost output = { λ x. Some (register_text x) };

    fn fmt<W: fmt::Write>(&self, f: &mut fmt::Formatter<W>) -> fmt::Result {
        let name = match self {
            Register::R0 => "r0",
            Register::R1 => "r1",
            Register::R2 => "r2",
            Register::R3 => "r3",
            Register::R4 => "r4",
            Register::R5 => "r5",
            Register::R6 => "r6",
            Register::R7 => "r7",
            Register::R8 => "r8",
            Register::R9 => "r9",
            Register::R10 => "r10",
        };
        write!(f, "{name}")
    }
}
