//! Statements of a program's text.
ghost use Rattle.std.specs.Prelude.{◌≡◌, Some};
ghost use Rattle.insn_codec.specs.Statements.{IsStatement, statement_slots, statement_text};

use crate::insn::Insn;
use crate::texts::WideText;
use std::fmt;

/// A line with code: an instruction, or any slot by its bytes.
#[derive(Clone, Copy, Debug, PartialEq, Eq)]
pub enum Statement {
    /// An instruction, in its one or two slots.
    Insn(Insn),
    /// A slot: its eight bytes in storage order, read as one big-endian number.
    Slot(u64),
}

impl Statement {
    /// The number of slots of the statement: 1, or 2 for a wide load.
    pub fn slots(&self) -> u64
        ensures { result ≡ statement_slots self.now }
    {
        match self {
            Statement::Insn(insn) => insn.slots(),
            Statement::Slot(_) => 1,
        }
    }

    /// The numbers of a statement fit their fields, as the laws on statements require.
    pub fn in_range(self)
        ensures { IsStatement self }
    {}
}

/// The statement's line: the instruction's, or `.slot` and the slot's bytes as 16 hex digits.
impl fmt::Display for Statement {
    ghost output = { λ x. Some (statement_text x) };

    fn fmt<W: fmt::Write>(&self, f: &mut fmt::Formatter<W>) -> fmt::Result {
        match *self {
            Statement::Insn(insn) => write!(f, "{insn}"),
            Statement::Slot(word) => {
                let word = WideText(word);
                write!(f, ".slot {word}")
            }
        }
    }
}
