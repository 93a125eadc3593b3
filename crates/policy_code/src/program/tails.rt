//! What a program does with the value of each expression, whose reference is in R0.

ghost use Rattle.std.specs.Prelude.{◌≡◌, ◌<◌, pos};
ghost use Rattle.expression_code.specs.Words.{verdict_address as address_of_word};
ghost use Rattle.policy_code.specs.Program as specs;
ghost use Rattle.verdicts.specs.Layout.{outcome_word};
ghost use Rattle.verdicts.specs.Verdict.{undecided as outcome_undecided};
ghost use Rattle.verdicts.specs.Policy.{part_limit};
ghost use Rattle.expression_code.specs.Limits.{jump_limit};

use Register::{R0, R1, R2, R6};
use expression_code::helpers::{KIND, TEXT_KIND};
use expression_code::instructions::{
    add, call, jump_if_imm, lddw, load_at, mov_imm, mov_reg, store_at,
};
use expression_code::references::{FALSE, TRUE};
use guest_memory::VERDICT;
use insn_codec::{Comparison, Insn, Register, Size};
use verdicts::FailurePolicy;
use verdicts::verdict_words::{ADMITTED, DENIED, ERRS, FAILS, FIRST_MESSAGE, REJECTED, SKIPPED};

/// The word of the verdict that counts the denials.
const DENIALS: u64 = 1;

/// The number of slots of `denial_code`.
pub(super) const DENIAL_SLOTS: u64 = 9;

/// The slot of the jump that an error takes, counted from the jump before `denial_code`.
pub(super) const LEAVE_SLOT: u64 = 5;

/// Loads the address of word i of the verdict into R1. Takes two slots.
fn verdict_word(i: u64) -> Insn
    requires { i < 256 }
    ensures { result ≡ Insn.LoadWide Register.R1 (address_of_word i) }
{
    lddw(R1, VERDICT + 8 * i)
}

/// The outcome if no condition is false and one could not be decided.
fn undecided(failure_policy: FailurePolicy) -> i32
    ensures { result ≡ pos (outcome_word (outcome_undecided failure_policy)) }
{
    match failure_policy {
        FailurePolicy::Fail => REJECTED as i32,
        FailurePolicy::Ignore => SKIPPED as i32,
    }
}

/// After a condition: true continues, false ends the program, and an error stores its outcome.
#[tactic(auto, unfolding(crate::specs::Program::condition_tail))]
pub(super) fn condition_tail(failure_policy: FailurePolicy) -> [Insn; 8]
    ensures { result ≡ specs.condition_tail failure_policy }
{
    [
        jump_if_imm(Comparison::Eq, R0, TRUE, 8),
        mov_imm(R2, undecided(failure_policy)),
        verdict_word(0),
        jump_if_imm(Comparison::Ne, R0, FALSE, 3),
        mov_imm(R0, SKIPPED as i32),
        store_at(R1, R0),
        Insn::Exit,
        store_at(R1, R2),
    ]
}

/// After all conditions: if an outcome is stored, the program ends.
pub(super) fn decided_tail() -> [Insn; 4]
    ensures { result ≡ specs.decided_tail }
{
    [
        verdict_word(0),
        load_at(R0, R1),
        jump_if_imm(Comparison::Eq, R0, 0, 1),
        Insn::Exit,
    ]
}

/// Skips this number of slots if the validation is true: its word is already 0.
pub(super) fn if_true(slots: u64) -> Insn
    requires { slots < jump_limit }
    ensures { result ≡ specs.if_true slots }
{
    jump_if_imm(Comparison::Eq, R0, TRUE, slots as usize)
}

/// The jump for an error: to the count of denials, or past it by this number of slots if an error
/// does not deny.
pub(super) fn leave_error(failure_policy: FailurePolicy, slots: u64) -> Insn
    requires { slots < jump_limit }
    ensures { result ≡ specs.leave_error failure_policy slots }
{
    let way = match failure_policy {
        FailurePolicy::Fail => 1,
        FailurePolicy::Ignore => slots,
    };
    Insn::Jump { offset: way as i16 }
}

/// Stores the number in word i of the verdict. R1 holds the address of the count of denials.
fn put_result(i: usize, n: i32) -> Insn
    requires { i < part_limit }
    ensures { result ≡ Insn.StoreImm Size.Dw Register.R1 (pos (specs.result_offset i)) n }
{
    Insn::StoreImm {
        size: Size::Dw,
        dst: R1,
        offset: 8 * (i as i16 + 1),
        imm: n,
    }
}

/// After validation i without a message, if it is not true: stores its word and counts a denial.
#[tactic(auto, unfolding(crate::specs::Program::denial_code))]
pub(super) fn denial_code(failure_policy: FailurePolicy, i: usize) -> [Insn; 8]
    requires { i < part_limit }
    ensures { result ≡ specs.denial_code failure_policy i 0 }
{
    [
        verdict_word(DENIALS),
        jump_if_imm(Comparison::Eq, R0, FALSE, 2),
        put_result(i, ERRS as i32),
        leave_error(failure_policy, DENIAL_SLOTS - LEAVE_SLOT),
        put_result(i, FAILS as i32),
        load_at(R2, R1),
        add(R2, 1),
        store_at(R1, R2),
    ]
}

/// After the message expression of validation i: stores the reference of a text in its word.
#[tactic(auto, unfolding(crate::specs::Program::message_tail))]
pub(super) fn message_tail(i: usize) -> [Insn; 6]
    requires { i < part_limit }
    ensures { result ≡ specs.message_tail i }
{
    [
        mov_reg(R6, R0),
        mov_reg(R1, R0),
        call(KIND),
        jump_if_imm(Comparison::Ne, R0, TEXT_KIND, 3),
        verdict_word(FIRST_MESSAGE + i as u64),
        store_at(R1, R6),
    ]
}

/// At the end: the outcome of a policy that ran.
#[tactic(auto, unfolding(crate::specs::Program::outcome_tail))]
pub(super) fn outcome_tail() -> [Insn; 6]
    ensures { result ≡ specs.outcome_tail }
{
    [
        verdict_word(0),
        Insn::Load {
            size: Size::Dw,
            dst: R2,
            src: R1,
            offset: 8 * DENIALS as i16,
        },
        mov_imm(R0, ADMITTED as i32),
        jump_if_imm(Comparison::Eq, R2, 0, 1),
        mov_imm(R0, DENIED as i32),
        store_at(R1, R0),
    ]
}
