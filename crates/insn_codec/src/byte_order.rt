//! Byte orders.

ghost use Rattle.std.specs.Prelude.{◌≡◌, Some};
ghost use Rattle.insn_codec.specs.Mnemonics.{order_text};

use std::fmt;

/// The conversion of a byte swap instruction (RFC 9669, section 4.2).
#[derive(Clone, Copy, Debug, PartialEq, Eq)]
pub enum ByteOrder {
    /// Between the host's order and little-endian.
    Little = 0xd4,
    /// Between the host's order and big-endian.
    Big = 0xdc,
    /// The bytes reversed, for any order of the host.
    Swap = 0xd7,
}

impl ByteOrder {
    ghost use Rattle.insn_codec.specs.Families.{order_of, order_opcode};

    /// The order with this opcode.
    pub(crate) fn of(opcode: u8) -> Option<ByteOrder>
        ensures { result ≡ order_of opcode }
    {
        match opcode {
            0xd4 => Some(ByteOrder::Little),
            0xdc => Some(ByteOrder::Big),
            0xd7 => Some(ByteOrder::Swap),
            _ => None,
        }
    }

    /// The opcode of the order.
    pub(crate) fn opcode(self) -> u8
        ensures { result ≡ order_opcode self }
    {
        self as u8
    }

    /// The name in a mnemonic.
    pub(crate) fn name(self) -> &'static str
        ensures { result.now ≡ order_text self }
    {
        match self {
            ByteOrder::Little => "le",
            ByteOrder::Big => "be",
            ByteOrder::Swap => "swap",
        }
    }
}

impl fmt::Display for ByteOrder {
    ghost output = { λ x. Some (order_text x) };

    fn fmt<W: fmt::Write>(&self, f: &mut fmt::Formatter<W>) -> fmt::Result {
        let name = self.name();
        write!(f, "{name}")
    }
}
