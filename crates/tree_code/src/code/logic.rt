//! Logical operators and the conditional.
//! Listed in `Code/Logic` of `expression_code/specs`, with laws in `Gives/Logic`.

ghost use Rattle.std.specs.Prelude.{◌≡◌, ◌<◌, ◌≤◌, ◌+◌, IfOk};
ghost use Rattle.expression_code.specs.Code.Logic as specs;
ghost use Rattle.expression_code.specs.Pieces.{size as size_of_piece};
ghost use Rattle.expression_code.specs.Limits.{frame_words, part_slot_limit};

use crate::code::Code;
use crate::instructions::{ja, load, size, store};
use crate::truths::Truths;
use expression_code::helpers;
use expression_code::instructions::{call, jump_if_imm, mov_imm};
use expression_code::references::{ERROR, FALSE, TRUE};
use insn_codec::{Comparison, Insn, Register};
use std::alloc::Global;

/// The number of slots between the sides of an operator.
pub(crate) const LEFT_SLOTS: usize = 2;

/// The number of slots after a condition.
pub(crate) const TERNARY_JUMP_SLOTS: usize = 2;

/// The number of slots between the branches, for a jump.
pub(crate) const BRANCH_SLOTS: usize = 1;

/// The number of slots, without those of the right side, that are skipped if the left side decides.
const ABSORBED_SLOTS: usize = 6;

/// The result of an operator for which the truth `decides` decides, given its right side in R0 and
/// its left side, which does not decide, in word k.
fn absorbing_tail(decides: i32, other: i32, k: usize) -> [Insn; 5]
    requires { k < frame_words }
    ensures { result ≡ specs.absorbing_tail decides other k }
{
    [
        load(Register::R1, k),
        jump_if_imm(Comparison::Eq, Register::R0, decides, 3),
        jump_if_imm(Comparison::Ne, Register::R1, other, 1),
        jump_if_imm(Comparison::Eq, Register::R0, other, 1),
        mov_imm(Register::R0, ERROR),
    ]
}

/// A logical operator for which the truth `decides` decides. If the left side decides, the right
/// side is skipped. If neither side decides, both must be the other truth, else the result is the
/// error.
#[tactic(auto, using(crate::proofs::Lengths::put_together))]
pub(crate) fn absorbing(
    alloc: Global,
    truths: Truths,
    left: &[Insn],
    right: &[Insn],
    k: usize,
) -> Code
    requires word { k < frame_words }
    requires near { size_of_piece right.now ≤ part_slot_limit }
    ensures { IfOk result (λ code. code.items ≡ specs.absorbing_code truths.decides truths.other left.now right.now k) }
{
    let Truths { decides, other } = truths;
    let behind = size(right) + ABSORBED_SLOTS;
    let mut code = left.to_vec(alloc)?;
    code.push(jump_if_imm(Comparison::Eq, Register::R0, decides, behind))?;
    code.push(store(k, Register::R0))?;
    code.extend_from_slice(right)?;
    code.extend_from_slice(&absorbing_tail(decides, other, k))?;
    Ok(code)
}

/// The negation of R1.
pub(crate) fn not_tail() -> [Insn; 1]
    ensures { result ≡ specs.not_tail }
{
    [call(helpers::NOT)]
}

/// The chosen branch, or the error if the condition is neither true nor false.
pub(crate) fn ternary(alloc: Global, condition: &[Insn], yes: &[Insn], no: &[Insn]) -> Code
    requires { size_of_piece yes.now + size_of_piece no.now ≤ part_slot_limit }
    ensures { IfOk result (λ code. code.items ≡ specs.ternary_code condition.now yes.now no.now) }
{
    let behind_yes = size(yes) + 2;
    let behind_no = size(no) + 2;
    let mut code = condition.to_vec(alloc)?;
    code.push(jump_if_imm(Comparison::Eq, Register::R0, FALSE, behind_yes))?;
    code.push(jump_if_imm(Comparison::Ne, Register::R0, TRUE, size(yes) + behind_no))?;
    code.extend_from_slice(yes)?;
    code.push(ja(behind_no))?;
    code.extend_from_slice(no)?;
    code.push(ja(1))?;
    code.push(mov_imm(Register::R0, ERROR))?;
    Ok(code)
}
