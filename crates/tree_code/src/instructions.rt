//! Short names for instructions.

ghost use Rattle.std.specs.Prelude.{◌≡◌, ◌<◌, ◌≤◌, ◌+◌};
ghost use Rattle.expression_code.specs.Code.KeptLists.{clear as clear_insn};
ghost use Rattle.expression_code.specs.Instructions as specs;
ghost use Rattle.expression_code.specs.Words.{word_offset as offset_of_word};
ghost use Rattle.expression_code.specs.Pieces.{size as size_of_piece};
ghost use Rattle.expression_code.specs.Code.Leaves.{leaf_insn, IsFrameWord};
ghost use Rattle.insn_codec.specs.Limits.{slot_limit};
ghost use Rattle.expression_code.specs.Limits.{frame_words, jump_limit};

use expression_code::instructions::mov_imm;
use expression_code::simple_operand::SimpleOperand;
use insn_codec::{AluOp, Comparison, Insn, Operand, Register, Size, Width};

/// The number of slots of the instructions.
#[tactic(auto, using(crate::proofs::Lengths::size_cons))]
pub(crate) fn size(piece: &[Insn]) -> usize
    requires { size_of_piece piece.now < slot_limit }
    ensures { result ≡ size_of_piece piece.now }
{
    let mut total: usize = 0;
    for insn in piece {
        total += insn.slots() as usize;
    }
    total
}

/// The offset of word k of the frame from the frame pointer.
fn word_offset(k: usize) -> i16
    requires { k < frame_words }
    ensures { result ≡ offset_of_word k }
{
    -1 - (8 * k + 7) as i16
}

/// Loads word k of the frame into the register.
pub(crate) fn load(register: Register, k: usize) -> Insn
    requires { k < frame_words }
    ensures { result ≡ specs.load register k }
{
    Insn::Load {
        size: Size::Dw,
        dst: register,
        src: Register::R10,
        offset: word_offset(k),
    }
}

/// Loads the simple operand into the register.
pub(crate) fn leaf_into(leaf: SimpleOperand, register: Register) -> Insn
    requires { IsFrameWord leaf }
    ensures { result ≡ leaf_insn leaf register }
{
    match leaf {
        SimpleOperand::Reference(n) => mov_imm(register, n),
        SimpleOperand::Word(k) => load(register, k),
    }
}

/// Stores the register in word k of the frame.
pub(crate) fn store(k: usize, register: Register) -> Insn
    requires { k < frame_words }
    ensures { result ≡ specs.store k register }
{
    Insn::Store {
        size: Size::Dw,
        dst: Register::R10,
        offset: word_offset(k),
        src: register,
    }
}

/// Stores 0 in word k of the frame.
pub(crate) fn clear(k: usize) -> Insn
    requires { k < frame_words }
    ensures { result ≡ clear_insn k }
{
    Insn::StoreImm {
        size: Size::Dw,
        dst: Register::R10,
        offset: word_offset(k),
        imm: 0,
    }
}

/// Applies the operation to both registers; the result is in the first.
pub(crate) fn compute(op: AluOp, dst: Register, src: Register) -> Insn
    ensures { result ≡ specs.compute op dst src }
{
    Insn::Alu {
        op,
        width: Width::W64,
        dst,
        operand: Operand::Reg(src),
    }
}

/// Jumps over this number of slots if the comparison of the registers holds.
pub(crate) fn jump_if_reg(
    comparison: Comparison,
    dst: Register,
    src: Register,
    slots: usize,
) -> Insn
    requires { slots < jump_limit }
    ensures { result ≡ specs.jump_if_reg comparison dst src slots }
{
    Insn::Branch {
        comparison,
        width: Width::W64,
        dst,
        operand: Operand::Reg(src),
        offset: slots as i16,
    }
}

/// Jumps over this number of slots.
pub(crate) fn ja(slots: usize) -> Insn
    requires { slots < jump_limit }
    ensures { result ≡ specs.ja slots }
{
    Insn::Jump {
        offset: slots as i16,
    }
}

/// Jumps back by this number of slots if the comparison of the registers holds.
pub(crate) fn back_where(comparison: Comparison, dst: Register, src: Register, slots: usize) -> Insn
    requires { slots < jump_limit }
    ensures { result ≡ specs.back_where comparison dst src slots }
{
    Insn::Branch {
        comparison,
        width: Width::W64,
        dst,
        operand: Operand::Reg(src),
        offset: -1 - slots as i16,
    }
}
