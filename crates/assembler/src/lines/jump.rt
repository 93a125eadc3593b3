//! Jumps to a label.

use insn_codec::{Comparison, Insn, Operand, Register, Statement, Width};

/// An instruction that jumps by an offset, without that offset (RFC 9669, section 4.3).
#[derive(Clone, Copy)]
pub(crate) enum Jump {
    /// A jump with an offset of 16 bits.
    Near,
    /// A jump with an offset of 32 bits.
    Long,
    /// A call of the program's own function.
    CallLocal,
    /// A jump that is taken if the comparison holds, with an offset of 16 bits.
    Branch {
        comparison: Comparison,
        width: Width,
        dst: Register,
        operand: Operand,
    },
}

impl Jump {
    ghost use Rattle.std.specs.Prelude.{◌≡◌, Some, None, if◌then◌else◌};
    ghost use Rattle.assembler.specs.Jumps.{fits_16, with_offset as offset_added};

    /// The jump with its offset, in slots from the next one on, if the offset fits.
    pub(crate) fn with_offset(self, offset: i32) -> Option<Statement>
        ensures { result ≡ offset_added self offset }
    {
        let insn = match self {
            Jump::Long => Insn::JumpLong { offset },
            Jump::CallLocal => Insn::CallLocal { offset },
            Jump::Near => Insn::Jump {
                offset: Jump::short(offset)?,
            },
            Jump::Branch {
                comparison,
                width,
                dst,
                operand,
            } => Insn::Branch {
                comparison,
                width,
                dst,
                operand,
                offset: Jump::short(offset)?,
            },
        };
        Some(Statement::Insn(insn))
    }

    /// The offset in 16 bits, if it fits.
    fn short(offset: i32) -> Option<i16>
        ensures { result ≡ (if fits_16 offset then Some offset else None) }
    {
        i16::try_from(offset).ok()
    }
}
