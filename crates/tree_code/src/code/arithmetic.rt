//! Arithmetic on 64-bit ints, and concatenation of texts and lists.
//! Listed in `Code/Arithmetic` of `expression_code/specs`, with laws in `Gives/Arithmetic`.

ghost use Rattle.std.specs.Prelude.{◌≡◌, ◌<◌, ◌≤◌, IfOk};
ghost use Rattle.expression_code.specs.Code.Arithmetic as specs;

use crate::code::Code;
use crate::instructions::{compute, ja, jump_if_reg};
use Register::{R0, R1, R2, R6, R7};
use expression_code::helpers::{self, INT_KIND};
use expression_code::instructions::{call, jump_if_imm, lddw, mov_imm, mov_reg};
use expression_code::references::ERROR;
use insn_codec::{AluOp, Comparison, Insn, Register, Width};
use std::alloc::Global;

/// The word of the smallest int.
const LEAST: u64 = 1 << 63;

/// The number of slots of `int_operands` after its test of R6.
const AFTER_LEFT_KIND: usize = 9;

/// The number of slots of `int_operands` after its test of R7.
const AFTER_RIGHT_KIND: usize = 6;

/// The slot after the operands of a sum where operands that are not ints are concatenated.
const SUM_JOIN_SLOT: usize = 10;

/// The slot after the operands of a difference where the error is loaded.
const DIFFERENCE_ERROR_SLOT: usize = 8;

/// The slot after the operands of a product where the error is loaded.
const PRODUCT_ERROR_SLOT: usize = 12;

/// The slot after the operands of a quotient or remainder where the error is loaded.
const DIVIDED_ERROR_SLOT: usize = 9;

/// Replaces the references in R6 and R7 by their ints. If one is not an int, skips this number of
/// further slots.
#[tactic(auto, unfolding(expression_code::specs::Code::Arithmetic::int_operands))]
fn int_operands(slots: usize) -> [Insn; 12]
    requires { slots ≤ 100 }
    ensures { result ≡ specs.int_operands slots }
{
    [
        mov_reg(R1, R6),
        call(helpers::KIND),
        jump_if_imm(Comparison::Ne, R0, INT_KIND, slots + AFTER_LEFT_KIND),
        mov_reg(R1, R7),
        call(helpers::KIND),
        jump_if_imm(Comparison::Ne, R0, INT_KIND, slots + AFTER_RIGHT_KIND),
        mov_reg(R1, R6),
        call(helpers::INT_OF),
        mov_reg(R6, R0),
        mov_reg(R1, R7),
        call(helpers::INT_OF),
        mov_reg(R7, R0),
    ]
}

/// The sum or difference of R6 and R7, or the error if it overflows.
fn checked_tail(op: AluOp, below: Comparison, above: Comparison) -> [Insn; 9]
    ensures { result ≡ specs.checked_tail op below above }
{
    [
        mov_reg(R1, R6),
        compute(op, R1, R7),
        jump_if_imm(Comparison::Slt, R7, 0, 2),
        jump_if_reg(above, R1, R6, 4),
        ja(1),
        jump_if_reg(below, R1, R6, 2),
        call(helpers::INT_NEW),
        ja(1),
        mov_imm(R0, ERROR),
    ]
}

/// The product of R6 and R7, or the error if it overflows.
#[tactic(auto, unfolding(expression_code::specs::Code::Arithmetic::product_tail))]
fn product_tail() -> [Insn; 12]
    ensures { result ≡ specs.product_tail }
{
    [
        mov_reg(R1, R6),
        compute(AluOp::Mul, R1, R7),
        jump_if_imm(Comparison::Eq, R7, 0, 7),
        jump_if_imm(Comparison::Ne, R7, -1, 3),
        lddw(R2, LEAST),
        jump_if_reg(Comparison::Eq, R6, R2, 5),
        mov_reg(R2, R1),
        compute(AluOp::Sdiv, R2, R7),
        jump_if_reg(Comparison::Ne, R2, R6, 2),
        call(helpers::INT_NEW),
        ja(1),
        mov_imm(R0, ERROR),
    ]
}

/// The quotient or remainder of R6 by R7, or the error if there is none.
fn divided_tail(op: AluOp) -> [Insn; 9]
    ensures { result ≡ specs.divided_tail op }
{
    [
        jump_if_imm(Comparison::Eq, R7, 0, 8),
        jump_if_imm(Comparison::Ne, R7, -1, 3),
        lddw(R2, LEAST),
        jump_if_reg(Comparison::Eq, R6, R2, 4),
        mov_reg(R1, R6),
        compute(op, R1, R7),
        call(helpers::INT_NEW),
        ja(1),
        mov_imm(R0, ERROR),
    ]
}

/// The value in R6 plus the value in R7.
pub(crate) fn sum(alloc: Global) -> Code
    ensures { IfOk result (λ code. code.items ≡ specs.sum_code) }
{
    let mut code = int_operands(SUM_JOIN_SLOT).to_vec(alloc)?;
    code.extend_from_slice(&checked_tail(AluOp::Add, Comparison::Sge, Comparison::Slt))?;
    code.extend_from_slice(&[ja(3), mov_reg(R1, R6), mov_reg(R2, R7), call(helpers::JOIN)])?;
    Ok(code)
}

/// The value in R6 minus the value in R7.
pub(crate) fn difference(alloc: Global) -> Code
    ensures { IfOk result (λ code. code.items ≡ specs.difference_code) }
{
    let mut code = int_operands(DIFFERENCE_ERROR_SLOT).to_vec(alloc)?;
    code.extend_from_slice(&checked_tail(AluOp::Sub, Comparison::Sle, Comparison::Sgt))?;
    Ok(code)
}

/// The product of the values in R6 and R7.
pub(crate) fn product(alloc: Global) -> Code
    ensures { IfOk result (λ code. code.items ≡ specs.product_code) }
{
    let mut code = int_operands(PRODUCT_ERROR_SLOT).to_vec(alloc)?;
    code.extend_from_slice(&product_tail())?;
    Ok(code)
}

/// The quotient or remainder of the value in R6 by the value in R7.
pub(crate) fn divided(alloc: Global, op: AluOp) -> Code
    ensures { IfOk result (λ code. code.items ≡ specs.divided_code op) }
{
    let mut code = int_operands(DIVIDED_ERROR_SLOT).to_vec(alloc)?;
    code.extend_from_slice(&divided_tail(op))?;
    Ok(code)
}

/// The negation of the value in R6.
#[tactic(auto, unfolding(expression_code::specs::Code::Arithmetic::negation_tail))]
pub(crate) fn negation_tail() -> [Insn; 12]
    ensures { result ≡ specs.negation_tail }
{
    [
        mov_reg(R1, R6),
        call(helpers::KIND),
        jump_if_imm(Comparison::Ne, R0, INT_KIND, 9),
        mov_reg(R1, R6),
        call(helpers::INT_OF),
        mov_reg(R1, R0),
        lddw(R2, LEAST),
        jump_if_reg(Comparison::Eq, R1, R2, 3),
        Insn::Neg {
            width: Width::W64,
            dst: R1,
        },
        call(helpers::INT_NEW),
        ja(1),
        mov_imm(R0, ERROR),
    ]
}
