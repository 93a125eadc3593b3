//! Short names for instructions, for the crates that generate code.

ghost use Rattle.std.specs.Prelude.{◌≡◌, ◌<◌, pos};
ghost use Rattle.expression_code.specs.Instructions as specs;
ghost use Rattle.expression_code.specs.Limits.{jump_limit};

use insn_codec::{AluOp, Comparison, Insn, Operand, Register, Size, Width};

/// Copies the second register to the first.
pub fn mov_reg(dst: Register, src: Register) -> Insn
    ensures { result ≡ specs.mov_reg dst src }
{
    Insn::Alu {
        op: AluOp::Mov,
        width: Width::W64,
        dst,
        operand: Operand::Reg(src),
    }
}

/// Loads the number into the register.
pub fn mov_imm(dst: Register, n: i32) -> Insn
    ensures { result ≡ specs.mov_imm dst n }
{
    Insn::Alu {
        op: AluOp::Mov,
        width: Width::W64,
        dst,
        operand: Operand::Imm(n),
    }
}

/// Adds the number to the register.
pub fn add(dst: Register, n: i32) -> Insn
    ensures { result ≡ Insn.Alu AluOp.Add Width.W64 dst (Operand.Imm n) }
{
    Insn::Alu {
        op: AluOp::Add,
        width: Width::W64,
        dst,
        operand: Operand::Imm(n),
    }
}

/// Loads the word at the address in the second register into the first.
pub fn load_at(dst: Register, src: Register) -> Insn
    ensures { result ≡ Insn.Load Size.Dw dst src (pos 0) }
{
    Insn::Load {
        size: Size::Dw,
        dst,
        src,
        offset: 0,
    }
}

/// Stores the second register at the address in the first.
pub fn store_at(dst: Register, src: Register) -> Insn
    ensures { result ≡ Insn.Store Size.Dw dst (pos 0) src }
{
    Insn::Store {
        size: Size::Dw,
        dst,
        offset: 0,
        src,
    }
}

/// Loads the word into the register. Takes two slots.
pub fn lddw(dst: Register, value: u64) -> Insn
    ensures { result ≡ specs.lddw dst value }
{
    Insn::LoadWide { dst, value }
}

/// Calls the helper with this number.
pub fn call(helper: i32) -> Insn
    ensures { result ≡ Insn.Call helper }
{
    Insn::Call { helper }
}

/// Jumps over this number of slots if the comparison of the register and the number holds.
pub fn jump_if_imm(comparison: Comparison, dst: Register, n: i32, slots: usize) -> Insn
    requires { slots < jump_limit }
    ensures { result ≡ specs.jump_if_imm comparison dst n slots }
{
    Insn::Branch {
        comparison,
        width: Width::W64,
        dst,
        operand: Operand::Imm(n),
        offset: slots as i16,
    }
}
