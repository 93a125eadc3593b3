//! Loads operands into registers.
//! Listed in `Code/Calls` of `expression_code/specs`, with laws in `Operators`.

ghost use Rattle.std.specs.Prelude.{◌≡◌, ◌<◌, ◌≤◌, ◌+◌, IfOk};
ghost use Rattle.expression_code.specs.Code.Calls as specs;
ghost use Rattle.expression_code.specs.Code.Leaves.{IsFrameWord};
ghost use Rattle.expression_code.specs.Pieces.{size as size_of_piece};
ghost use Rattle.expression_code.specs.Limits.{frame_words, part_slot_limit};

use crate::code::Code;
use crate::instructions::{leaf_into, size, store};
use crate::part::Part;
use expression_code::instructions::mov_reg;
use expression_code::simple_operand::SimpleOperand;
use insn_codec::Register;
use std::alloc::Global;

/// Loads a part into a register. A simple operand takes one instruction; the code of any other part
/// leaves its value in R0.
pub(crate) fn operand(alloc: Global, part: &Part, register: Register) -> Code
    ensures { IfOk result (λ code. code.items ≡ specs.operand_code part.now.leaf part.now.code.items register) }
{
    match part.leaf {
        Some(leaf) => [leaf_into(leaf, register)].to_vec(alloc),
        None => {
            let mut code = part.code.to_vec(alloc)?;
            code.push(mov_reg(register, Register::R0))?;
            Ok(code)
        }
    }
}

/// Evaluates a left operand before the right one. A simple operand is loaded later; any other value
/// is stored in word k.
fn kept(alloc: Global, left: &Part, k: usize) -> Code
    requires { k < frame_words }
    ensures { IfOk result (λ code. code.items ≡ specs.kept_code left.now.leaf left.now.code.items k) }
{
    if left.leaf.is_some() {
        return Ok(Vec::new(alloc));
    }
    let mut code = left.code.to_vec(alloc)?;
    code.push(store(k, Register::R0))?;
    Ok(code)
}

/// The number of slots of `kept`.
pub(crate) fn kept_size(left: &Part) -> usize
    requires { size_of_piece left.now.code.items ≤ part_slot_limit }
    ensures size { result ≡ specs.kept_size left.now.leaf left.now.code.items }
    ensures near { result ≤ size_of_piece left.now.code.items + 1 }
{
    match left.leaf {
        Some(_) => 0,
        None => size(&left.code) + 1,
    }
}

/// The left operand after the right one was evaluated.
fn kept_leaf(left: &Part, k: usize) -> SimpleOperand
    requires { k < frame_words }
    ensures leaf { result ≡ specs.kept_leaf left.now.leaf k }
    ensures word { IsFrameWord result }
{
    left.leaf.unwrap_or(SimpleOperand::Word(k))
}

/// Loads both parts into registers. A right part that is a simple operand needs no word of the
/// frame.
pub(crate) fn operands(
    alloc: Global,
    left: &Part,
    right: &Part,
    k: usize,
    registers: (Register, Register),
) -> Code
    requires { k < frame_words }
    ensures { IfOk result (λ code. code.items ≡ specs.operands_code left.now.leaf left.now.code.items right.now.leaf right.now.code.items k registers.0 registers.1) }
{
    let (first, second) = registers;
    if let Some(leaf) = right.leaf {
        let mut code = operand(alloc, left, first)?;
        code.push(leaf_into(leaf, second))?;
        return Ok(code);
    }
    let mut code = kept(alloc, left, k)?;
    code.extend_from_slice(&right.code)?;
    code.extend_from_slice(&[
        mov_reg(second, Register::R0),
        leaf_into(kept_leaf(left, k), first),
    ])?;
    Ok(code)
}
