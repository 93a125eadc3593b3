//! Atomic operations.

ghost use Rattle.std.specs.Prelude.{◌≡◌, Some, pos};
ghost use Rattle.insn_codec.specs.Mnemonics.{atomic_text};

use std::fmt;

/// What an atomic instruction writes to the word in memory, and the register that
/// receives the old word (RFC 9669, section 5.3).
#[derive(Clone, Copy, Debug, PartialEq, Eq)]
pub enum AtomicOp {
    /// The sum of the word and the source.
    Add = 0x00,
    /// The bits that are set in either.
    Or = 0x40,
    /// The bits that are set in both.
    And = 0x50,
    /// The bits that are set in exactly one of both.
    Xor = 0xa0,
    /// The sum; the source receives the old word.
    FetchAdd = 0x01,
    /// The bits that are set in either; the source receives the old word.
    FetchOr = 0x41,
    /// The bits that are set in both; the source receives the old word.
    FetchAnd = 0x51,
    /// The bits that are set in exactly one of both; the source receives the old word.
    FetchXor = 0xa1,
    /// The source; the source receives the old word.
    Exchange = 0xe1,
    /// The source if the word equals R0; R0 receives the old word.
    CompareExchange = 0xf1,
}

impl AtomicOp {
    ghost use Rattle.insn_codec.specs.Families.{atomic_code, atomic_of};

    /// The operation with this code, which is in the slot's imm field.
    pub(crate) fn of(code: i32) -> Option<AtomicOp>
        ensures { result ≡ atomic_of code }
    {
        match code {
            0x00 => Some(AtomicOp::Add),
            0x40 => Some(AtomicOp::Or),
            0x50 => Some(AtomicOp::And),
            0xa0 => Some(AtomicOp::Xor),
            0x01 => Some(AtomicOp::FetchAdd),
            0x41 => Some(AtomicOp::FetchOr),
            0x51 => Some(AtomicOp::FetchAnd),
            0xa1 => Some(AtomicOp::FetchXor),
            0xe1 => Some(AtomicOp::Exchange),
            0xf1 => Some(AtomicOp::CompareExchange),
            _ => None,
        }
    }

    /// The code of the operation.
    pub(crate) fn code(self) -> i32
        ensures { result ≡ pos (atomic_code self) }
    {
        self as i32
    }

    /// The name in a mnemonic.
    pub(crate) fn name(self) -> &'static str
        ensures { result.now ≡ atomic_text self }
    {
        match self {
            AtomicOp::Add => "add",
            AtomicOp::Or => "or",
            AtomicOp::And => "and",
            AtomicOp::Xor => "xor",
            AtomicOp::FetchAdd => "fetch_add",
            AtomicOp::FetchOr => "fetch_or",
            AtomicOp::FetchAnd => "fetch_and",
            AtomicOp::FetchXor => "fetch_xor",
            AtomicOp::Exchange => "xchg",
            AtomicOp::CompareExchange => "cmpxchg",
        }
    }
}

impl fmt::Display for AtomicOp {
    ghost output = { λ x. Some (atomic_text x) };

    fn fmt<W: fmt::Write>(&self, f: &mut fmt::Formatter<W>) -> fmt::Result {
        let name = self.name();
        write!(f, "{name}")
    }
}
