//! Operators.
//! Listed in `Code/Comparison` of `expression_code/specs`, with laws in `Gives/Comparison`.

ghost use Rattle.std.specs.Prelude.{◌≡◌, ◌<◌, ◌≤◌, ◌+◌, ◌++◌, ◌∷◌, [], IfOk};
ghost use Rattle.tree_code.specs.Code.Expressions as specs;
ghost use Rattle.expression_code.specs.Code.Comparison as comparison;
ghost use Rattle.expression_code.specs.Pieces.{size as size_of_piece};
ghost use Rattle.expression_code.specs.Limits.{part_slot_limit, frame_words};

use crate::code::Code;
use crate::code::arithmetic::{difference, divided, negation_tail, product, sum};
use crate::code::calls::{kept_size, operand, operands};
use crate::code::logic::{LEFT_SLOTS, absorbing, not_tail};
use crate::instructions::size;
use crate::part::Part;
use crate::truths::Truths;
use Register::{R0, R1, R2, R6, R7};
use cel_reader::{BinaryOperator, UnaryOperator};
use expression_code::helpers::{EQUAL, LESS, MEMBER, NOT};
use expression_code::instructions::{call, mov_reg};
use expression_code::references::{FALSE, TRUE};
use insn_codec::{AluOp, Insn, Register};
use std::alloc::Global;

/// A unary operator.
pub(crate) fn unary(alloc: Global, op: UnaryOperator, of: &Part) -> Code
    ensures { IfOk result (λ code. code.items ≡ specs.unary_code op of.now.leaf of.now.code.items) }
{
    match op {
        UnaryOperator::Not => {
            let mut code = operand(alloc, of, R1)?;
            code.extend_from_slice(&not_tail())?;
            Ok(code)
        }
        UnaryOperator::Negate => {
            let mut code = operand(alloc, of, R6)?;
            code.extend_from_slice(&negation_tail())?;
            Ok(code)
        }
    }
}

/// The number of slots before the operator's right operand.
pub(crate) fn left_size(op: BinaryOperator, left: &Part) -> usize
    requires { size_of_piece left.now.code.items ≤ part_slot_limit }
    ensures size { result ≡ specs.left_size op left.now.leaf left.now.code.items }
    ensures near { result ≤ size_of_piece left.now.code.items + 2 }
{
    match op {
        BinaryOperator::Or | BinaryOperator::And => size(&left.code) + LEFT_SLOTS,
        _ => kept_size(left),
    }
}

/// The registers for the operator's operands.
fn registers(op: BinaryOperator) -> (Register, Register)
    ensures { result ≡ specs.registers op }
{
    match op {
        // `a > b` is `b < a`, and `a <= b` its negation.
        BinaryOperator::LessEqual | BinaryOperator::Greater => (R2, R1),
        BinaryOperator::Add
        | BinaryOperator::Subtract
        | BinaryOperator::Multiply
        | BinaryOperator::Divide
        | BinaryOperator::Remainder => (R6, R7),
        _ => (R1, R2),
    }
}

/// The negation of the helper's result for R1 and R2.
fn opposite_of(helper: i32) -> [Insn; 3]
    ensures { result ≡ comparison.opposite_of (Insn.Call helper ∷ []) }
{
    [call(helper), mov_reg(R1, R0), call(NOT)]
}

/// The operator's code after both operands.
#[tactic(auto, unfolding(crate::specs::Code::Expressions::binary_tail))]
fn binary_tail(alloc: Global, op: BinaryOperator) -> Code
    ensures { IfOk result (λ code. code.items ≡ specs.binary_tail op) }
{
    match op {
        // These two may skip the right side, so they have no code after both operands.
        BinaryOperator::Or | BinaryOperator::And => Ok(Vec::new(alloc)),
        BinaryOperator::Less | BinaryOperator::Greater => [call(LESS)].to_vec(alloc),
        BinaryOperator::LessEqual | BinaryOperator::GreaterEqual => opposite_of(LESS).to_vec(alloc),
        BinaryOperator::Equal => [call(EQUAL)].to_vec(alloc),
        BinaryOperator::NotEqual => opposite_of(EQUAL).to_vec(alloc),
        BinaryOperator::In => [call(MEMBER)].to_vec(alloc),
        BinaryOperator::Add => sum(alloc),
        BinaryOperator::Subtract => difference(alloc),
        BinaryOperator::Multiply => product(alloc),
        BinaryOperator::Divide => divided(alloc, AluOp::Sdiv),
        BinaryOperator::Remainder => divided(alloc, AluOp::Smod),
    }
}

/// A binary operator.
pub(crate) fn binary(alloc: Global, op: BinaryOperator, left: &Part, right: &Part, k: usize) -> Code
    requires word { k < frame_words }
    requires near { size_of_piece right.now.code.items ≤ part_slot_limit }
    ensures { IfOk result (λ code. code.items ≡ specs.binary_code op left.now.leaf left.now.code.items right.now.leaf right.now.code.items k) }
{
    match op {
        BinaryOperator::Or => {
            let truths = Truths {
                decides: TRUE,
                other: FALSE,
            };
            absorbing(alloc, truths, &left.code, &right.code, k)
        }
        BinaryOperator::And => {
            let truths = Truths {
                decides: FALSE,
                other: TRUE,
            };
            absorbing(alloc, truths, &left.code, &right.code, k)
        }
        _ => {
            let mut code = operands(alloc, left, right, k, registers(op))?;
            code.extend_from_slice(&binary_tail(alloc, op)?)?;
            Ok(code)
        }
    }
}
