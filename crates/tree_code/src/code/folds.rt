//! Macros: loops over the items of a list or the keys of a map.
//! Listed in `Code/Folds` of `expression_code/specs`, with laws in `Gives/Folds` and `Loops`.

ghost use Rattle.std.specs.Prelude.{◌≡◌, ◌<◌, ◌≤◌, ◌+◌, ◌++◌, ◌∷◌, [], IfOk};
ghost use Rattle.expression_code.specs.Loops as loops;
ghost use Rattle.expression_code.specs.Code.Folds as specs;
ghost use Rattle.expression_code.specs.Pieces.{size as size_of_piece};
ghost use Rattle.expression_code.specs.Limits.{frame_words, jump_limit, turn_slot_limit, part_slot_limit};

use crate::code::Code;
use crate::instructions::{back_where, ja, jump_if_reg, load, size, store};
use Register::{R0, R1, R2};
use cel_macros::Macro;
use expression_code::helpers;
use expression_code::instructions::{add, call, jump_if_imm, mov_imm, mov_reg};
use expression_code::references::{ERROR, FALSE, NULL, TRUE};
use insn_codec::{Comparison, Insn, Register};
use std::alloc::Global;

/// The word of the number of items, counted from a loop's first word, which holds the range.
const COUNT: usize = 1;

/// The word of the next item's index.
const PLACE: usize = 2;

/// The word of the result so far.
const ANSWER: usize = 3;

/// The word of the current item.
pub(crate) const ITEM: usize = 4;

/// The number of words of a loop. Its turn uses the words after them.
pub(crate) const LOOP_WORDS: usize = 5;

/// The number of slots of a fold between its range and its turn.
pub(crate) const SLOTS_BEFORE_TURN: usize = 17;

/// The number of slots, without those of the turn, that are skipped if the range has no items:
/// three of `range_tail`, the first result and its store, and the loop.
const NO_RANGE_SLOTS: usize = 17;

/// The number of slots, without those of the turn, that a loop skips at its end.
const EXIT_SLOTS: usize = 8;

/// The number of slots, without those of the turn, that a loop jumps back.
const BACK_SLOTS: usize = 7;

/// The number of slots between the predicate of a `map` and its transform.
pub(crate) const PREDICATE_SLOTS: usize = 2;

/// R0 holds the range. If it is neither a list nor a map, R0 becomes the error, and this number of
/// slots after the sixth instruction is skipped.
fn range_tail(k: usize, slots: usize) -> [Insn; 9]
    requires words { loops.item_word k < frame_words }
    requires near { slots < jump_limit }
    ensures { result ≡ loops.range_tail k slots }
{
    [
        store(k, R0),
        mov_reg(R1, R0),
        call(helpers::COUNT),
        jump_if_imm(Comparison::Ne, R0, -1, 2),
        mov_imm(R0, ERROR),
        ja(slots),
        store(k + COUNT, R0),
        mov_imm(R0, 0),
        store(k + PLACE, R0),
    ]
}

/// Loads the next item, or jumps to where the result is loaded.
fn loop_head(k: usize, slots: usize) -> [Insn; 6]
    requires words { loops.item_word k < frame_words }
    requires near { slots < jump_limit }
    ensures { result ≡ loops.loop_head k slots }
{
    [
        load(R1, k + COUNT),
        load(R2, k + PLACE),
        jump_if_reg(Comparison::Eq, R1, R2, slots),
        load(R1, k),
        call(helpers::ITEM),
        store(k + ITEM, R0),
    ]
}

/// Jumps back to the next item if there is one, else loads the result. A turn that ends the loop
/// continues after this code.
fn loop_tail(k: usize, slots: usize) -> [Insn; 6]
    requires words { loops.item_word k < frame_words }
    requires near { slots < jump_limit }
    ensures { result ≡ loops.loop_tail k slots }
{
    [
        load(R2, k + PLACE),
        add(R2, 1),
        store(k + PLACE, R2),
        load(R1, k + COUNT),
        back_where(Comparison::Ne, R1, R2, slots),
        load(R0, k + ANSWER),
    ]
}

/// A loop whose turn replaces the result so far.
fn loop_of(alloc: Global, turn: &[Insn], k: usize) -> Code
    requires words { loops.item_word k < frame_words }
    requires near { size_of_piece turn.now ≤ turn_slot_limit }
    ensures { IfOk result (λ code. code.items ≡ loops.loop_code k turn.now) }
{
    let slots = size(turn);
    let mut code = loop_head(k, slots + EXIT_SLOTS).to_vec(alloc)?;
    code.extend_from_slice(turn)?;
    code.extend_from_slice(&loop_tail(k, slots + BACK_SLOTS))?;
    Ok(code)
}

/// Combines the predicate's value with the result so far, which does not decide. A value that
/// decides ends the loop. The other truth keeps the result. Any other value makes the result the
/// error.
fn absorbing_turn(decides: i32, other: i32, k: usize) -> [Insn; 4]
    requires { loops.item_word k < frame_words }
    ensures { result ≡ specs.absorbing_turn decides other k }
{
    [
        jump_if_imm(Comparison::Eq, R0, decides, 9),
        jump_if_imm(Comparison::Eq, R0, other, 2),
        mov_imm(R0, ERROR),
        store(k + ANSWER, R0),
    ]
}

/// Counts the predicate's value in R0. The result so far is false for no match, true for one, null
/// for more, or the error.
#[tactic(auto, unfolding(expression_code::specs::Code::Folds::exists_one_turn))]
fn exists_one_turn(k: usize) -> [Insn; 9]
    requires { loops.item_word k < frame_words }
    ensures { result ≡ specs.exists_one_turn k }
{
    [
        jump_if_imm(Comparison::Eq, R0, FALSE, 8),
        jump_if_imm(Comparison::Ne, R0, TRUE, 5),
        load(R1, k + ANSWER),
        jump_if_imm(Comparison::Eq, R1, ERROR, 5),
        jump_if_imm(Comparison::Eq, R1, FALSE, 3),
        mov_imm(R0, NULL),
        ja(1),
        mov_imm(R0, ERROR),
        store(k + ANSWER, R0),
    ]
}

/// Appends the item to the result so far if the predicate is true.
#[tactic(auto, unfolding(expression_code::specs::Code::Folds::filter_turn))]
fn filter_turn(k: usize) -> [Insn; 8]
    requires { loops.item_word k < frame_words }
    ensures { result ≡ specs.filter_turn k }
{
    [
        jump_if_imm(Comparison::Eq, R0, FALSE, 7),
        jump_if_imm(Comparison::Ne, R0, TRUE, 4),
        load(R1, k + ANSWER),
        load(R2, k + ITEM),
        call(helpers::PUSH),
        ja(1),
        mov_imm(R0, ERROR),
        store(k + ANSWER, R0),
    ]
}

/// Appends the transform's value to the result so far.
fn map_turn(k: usize) -> [Insn; 4]
    requires { loops.item_word k < frame_words }
    ensures { result ≡ specs.map_turn k }
{
    [
        mov_reg(R2, R0),
        load(R1, k + ANSWER),
        call(helpers::PUSH),
        store(k + ANSWER, R0),
    ]
}

/// Evaluates the transform if the predicate is true.
#[tactic(auto, using(crate::proofs::Lengths::size_map_where))]
fn map_where_turn(alloc: Global, transform: &[Insn], k: usize) -> Code
    requires words { loops.item_word k < frame_words }
    requires near { size_of_piece transform.now ≤ part_slot_limit }
    ensures code { IfOk result (λ code. code.items ≡ specs.map_where_turn transform.now k) }
    ensures near { IfOk result (λ code. size_of_piece code.items ≡ size_of_piece transform.now + 8) }
{
    let slots = size(transform);
    let mut code = [
        jump_if_imm(Comparison::Eq, R0, FALSE, slots + 7),
        jump_if_imm(Comparison::Ne, R0, TRUE, slots + 4),
    ]
    .to_vec(alloc)?;
    code.extend_from_slice(transform)?;
    code.extend_from_slice(&[
        mov_reg(R2, R0),
        load(R1, k + ANSWER),
        call(helpers::PUSH),
        ja(1),
        mov_imm(R0, ERROR),
        store(k + ANSWER, R0),
    ])?;
    Ok(code)
}

/// A predicate or transform, followed by the code that computes the next result.
#[tactic(auto, using(crate::proofs::Lengths::turn_near))]
fn turn_of(alloc: Global, part: &[Insn], tail: &[Insn]) -> Code
    requires { size_of_piece part.now + size_of_piece tail.now ≤ turn_slot_limit }
    ensures code { IfOk result (λ code. code.items ≡ part.now ++ tail.now) }
    ensures near { IfOk result (λ code. size_of_piece code.items ≤ turn_slot_limit) }
{
    let mut code = part.to_vec(alloc)?;
    code.extend_from_slice(tail)?;
    Ok(code)
}

/// The range, the result before the first item, and the loop. Its turn is this part followed by
/// these instructions.
fn fold(alloc: Global, range: &[Insn], first: Insn, part: &[Insn], tail: &[Insn], k: usize) -> Code
    requires words { loops.item_word k < frame_words }
    requires near { size_of_piece part.now + size_of_piece tail.now ≤ turn_slot_limit }
    requires first { size_of_piece (first ∷ []) ≡ 1 }
    ensures { IfOk result (λ code. code.items ≡ loops.fold_code k range.now (first ∷ []) (part.now ++ tail.now)) }
{
    let turn = turn_of(alloc, part, tail)?;
    let turns = loop_of(alloc, &turn, k)?;
    let behind = size(&turn) + NO_RANGE_SLOTS;
    let mut code = range.to_vec(alloc)?;
    code.extend_from_slice(&range_tail(k, behind))?;
    code.push(first)?;
    code.push(store(k + ANSWER, R0))?;
    code.extend_from_slice(&turns)?;
    Ok(code)
}

/// Whether the predicate is true for exactly one item.
#[tactic(auto, using(crate::proofs::Lengths::size_by_length))]
fn exists_one(alloc: Global, range: &[Insn], predicate: &[Insn], k: usize) -> Code
    requires words { loops.item_word k < frame_words }
    requires near { size_of_piece predicate.now ≤ part_slot_limit }
    ensures { IfOk result (λ code. code.items ≡ specs.exists_one_code k range.now predicate.now) }
{
    let mut code = fold(
        alloc,
        range,
        mov_imm(R0, FALSE),
        predicate,
        &exists_one_turn(k),
        k,
    )?;
    code.extend_from_slice(&[
        jump_if_imm(Comparison::Eq, R0, ERROR, 2),
        jump_if_imm(Comparison::Eq, R0, TRUE, 1),
        mov_imm(R0, FALSE),
    ])?;
    Ok(code)
}

/// The transformed values of the items for which the predicate is true.
pub(crate) fn map_where(
    alloc: Global,
    range: &[Insn],
    predicate: &[Insn],
    transform: &[Insn],
    k: usize,
) -> Code
    requires words { loops.item_word k < frame_words }
    requires near { size_of_piece predicate.now + size_of_piece transform.now ≤ part_slot_limit }
    ensures { IfOk result (λ code. code.items ≡ specs.map_where_code k range.now predicate.now transform.now) }
{
    let tail = map_where_turn(alloc, transform, k)?;
    fold(alloc, range, call(helpers::LIST_NEW), predicate, &tail, k)
}

/// A macro with one part, which is its predicate or its transform.
#[tactic(auto, using(crate::proofs::Lengths::size_by_length, crate::proofs::Walks::same_code))]
pub(crate) fn macro_of(alloc: Global, found: Macro, range: &[Insn], part: &[Insn], k: usize) -> Code
    requires words { loops.item_word k < frame_words }
    requires near { size_of_piece part.now ≤ part_slot_limit }
    ensures { IfOk result (λ code. code.items ≡ specs.macro_code found k range.now part.now) }
{
    match found {
        Macro::All => {
            let tail = absorbing_turn(FALSE, TRUE, k);
            fold(alloc, range, mov_imm(R0, TRUE), part, &tail, k)
        }
        Macro::Exists => {
            let tail = absorbing_turn(TRUE, FALSE, k);
            fold(alloc, range, mov_imm(R0, FALSE), part, &tail, k)
        }
        Macro::ExistsOne => exists_one(alloc, range, part, k),
        Macro::Filter => fold(
            alloc,
            range,
            call(helpers::LIST_NEW),
            part,
            &filter_turn(k),
            k,
        ),
        Macro::Map => fold(alloc, range, call(helpers::LIST_NEW), part, &map_turn(k), k),
    }
}
