//! The code of expressions.
#![tactic(auto, unfolding(crate::specs::Code::Expressions::code_of, cel_measures::specs::Measures::need, cel_measures::specs::Measures::nodes))]

ghost use Rattle.std.specs.Prelude.{◌≡◌, ◌≤◌, ◌+◌, ◌*◌, IfOk, IfSome};
ghost use Rattle.std.specs.Prelude as list;
ghost use Rattle.cel_macros.specs.Callee.{callee_view};
ghost use Rattle.cel_macros.specs.CoreTree as core;
ghost use Rattle.cel_macros.specs.CoreView.{core_view, cores, core_entries};
ghost use Rattle.cel_macros.specs.Expanding.{core_pair};
ghost use Rattle.cel_measures.specs.Measures.{nodes};
ghost use Rattle.expression_code.specs.Code.Leaves.{IsFrameWord};
ghost use Rattle.expression_code.specs.Pieces.{size as size_of_piece};
ghost use Rattle.tree_code.specs.Code.Expressions as specs;
ghost use Rattle.tree_code.specs.FrameWords.{words_of, AreWords};
ghost use Rattle.tree_code.specs.NameTable.{behind_kept, piece_of, HasFrameRoom};
ghost use Rattle.expression_code.specs.Limits.{part_slots_per_node};

use crate::code::calls::{kept_size, operands as operands_code};
use crate::code::{
    Code, aggregates, folds, kept_lists, literals, logic, names, operators, paths, selection,
    variables,
};
use crate::emit_position::EmitPosition;
use crate::frame_words::FrameWords;
use crate::instructions::size;
use crate::iteration::Iteration;
use crate::kept_lists::kept_place;
use crate::part::Part;
use cel_macros::{Callee, Core, Macro};
use cel_reader::BinaryOperator;
use expression_code::helpers;
use expression_code::instructions::call as call_helper;
use expression_code::simple_operand::SimpleOperand;
use insn_codec::{Insn, Register};
use std::alloc::{AllocError, Global};

/// The simple operand for an expression, if there is one.
fn leaf_of(core: &Core, words: &FrameWords) -> Option<SimpleOperand>
    requires { AreWords (words_of words.now) }
    ensures leaf { result ≡ specs.leaf_of (core_view core.now) (words_of words.now) }
    ensures word { IfSome result IsFrameWord }
{
    match core {
        Core::Literal(literal) => literals::literal_leaf(literal),
        Core::Name(name) => Some(names::name_leaf(name, words)),
        Core::Select(of, field) => paths::field_leaf(of, field, words),
        _ => None,
    }
}

/// A part, and its number of slots.
#[cycle(code)]
#[tactic(auto, using(crate::proofs::Walks::near_code))]
fn part(
    alloc: Global,
    core: &Core,
    position: EmitPosition,
) -> Result<(Vec<Insn>, usize), AllocError>
    requires { HasFrameRoom (core_view core.now) position }
    ensures code { IfOk result (λ part. part.0.items ≡ piece_of (core_view core.now) position.entry) }
    ensures slots { IfOk result (λ part. part.1 ≡ size_of_piece part.0.items) }
    ensures short { IfOk result (λ part. part.1 + 8 ≤ part_slots_per_node * nodes (core_view core.now)) }
{
    let code = code_of(alloc, core, position)?;
    let slots = size(&code);
    Ok((code, slots))
}

/// An operand, which may be simple.
#[cycle(code)]
fn operand(alloc: Global, core: &Core, position: EmitPosition) -> Result<Part, AllocError>
    requires { HasFrameRoom (core_view core.now) position }
    ensures leaf { IfOk result (λ part. part.leaf ≡ specs.leaf_of (core_view core.now) (words_of position.entry.words.now)) }
    ensures code { IfOk result (λ part. part.code.items ≡ piece_of (core_view core.now) position.entry) }
    ensures short { IfOk result (λ part. size_of_piece part.code.items + 8 ≤ part_slots_per_node * nodes (core_view core.now)) }
{
    let leaf = leaf_of(core, position.words);
    let (code, _) = part(alloc, core, position)?;
    Ok(Part { leaf, code })
}

/// Two operands. The left one is kept while the right one is evaluated.
#[cycle(code)]
fn operands(
    alloc: Global,
    left: &Core,
    right: &Core,
    position: EmitPosition,
) -> Result<(Part, Part), AllocError>
    requires { HasFrameRoom (core.index (core_view left.now) (core_view right.now)) position }
    ensures left { IfOk result (λ parts. parts.0.leaf ≡ specs.leaf_of (core_view left.now) (words_of position.entry.words.now)) }
    ensures left_code { IfOk result (λ parts. parts.0.code.items ≡ piece_of (core_view left.now) position.entry) }
    ensures right { IfOk result (λ parts. parts.1.leaf ≡ specs.leaf_of (core_view right.now) (words_of position.entry.words.now)) }
    ensures right_code { IfOk result (λ parts. parts.1.code.items ≡ piece_of (core_view right.now) (behind_kept position.entry parts.0.leaf parts.0.code.items)) }
{
    let first = operand(alloc, left, position)?;
    let behind = EmitPosition {
        word: position.word + 1,
        slot: position.slot + kept_size(&first),
        ..position
    };
    let second = operand(alloc, right, behind)?;
    Ok((first, second))
}

/// A field. It is a simple operand if its value is kept.
#[cycle(code)]
fn select(alloc: Global, of: &Core, field: &str, position: EmitPosition) -> Code
    requires { HasFrameRoom (core.select (core_view of.now) field.now) position }
    ensures { IfOk result (λ code. code.items ≡ piece_of (core.select (core_view of.now) field.now) position.entry) }
{
    match paths::field_leaf(of, field, position.words) {
        Some(leaf) => names::leaf(alloc, leaf),
        None => {
            let of = operand(alloc, of, position)?;
            selection::select(alloc, &of, position.around.texts, field)
        }
    }
}

/// An index expression.
#[cycle(code)]
fn index(alloc: Global, of: &Core, at: &Core, position: EmitPosition) -> Code
    requires { HasFrameRoom (core.index (core_view of.now) (core_view at.now)) position }
    ensures { IfOk result (λ code. code.items ≡ piece_of (core.index (core_view of.now) (core_view at.now)) position.entry) }
{
    let (left, right) = operands(alloc, of, at, position)?;
    let mut code = operands_code(
        alloc,
        &left,
        &right,
        position.word,
        (Register::R1, Register::R2),
    )?;
    code.push(call_helper(helpers::INDEX))?;
    Ok(code)
}

/// A binary operator.
#[cycle(code)]
fn binary(
    alloc: Global,
    op: BinaryOperator,
    left: &Core,
    right: &Core,
    position: EmitPosition,
) -> Code
    requires { HasFrameRoom (core.binary op (core_view left.now) (core_view right.now)) position }
    ensures { IfOk result (λ code. code.items ≡ piece_of (core.binary op (core_view left.now) (core_view right.now)) position.entry) }
{
    let first = operand(alloc, left, position)?;
    let behind = EmitPosition {
        word: position.word + 1,
        slot: position.slot + operators::left_size(op, &first),
        ..position
    };
    let second = operand(alloc, right, behind)?;
    operators::binary(alloc, op, &first, &second, position.word)
}

/// A list. Its value may be kept.
#[cycle(code)]
fn list(alloc: Global, parts: &[Core], position: EmitPosition) -> Code
    requires { HasFrameRoom (core.list (cores (list.map core_view parts.now))) position }
    ensures { IfOk result (λ code. code.items ≡ piece_of (core.list (cores (list.map core_view parts.now))) position.entry) }
{
    let kept = kept_place(parts, position.words);
    let mut items = Vec::new(alloc);
    let mut slot = position.slot + kept_lists::list_front(kept) + aggregates::HEAD_SLOTS;
    for item in parts {
        let place = EmitPosition {
            word: position.word + 1,
            slot,
            ..position
        };
        let (code, slots) = part(alloc, item, place)?;
        aggregates::add_item(&mut items, &code, position.word)?;
        slot += slots + aggregates::PUSH_SLOTS;
    }
    let made = aggregates::list(alloc, &items, position.word)?;
    kept_lists::kept_or_made(alloc, kept, made)
}

/// A map.
#[cycle(code)]
fn map(alloc: Global, pairs: &[(Core, Core)], position: EmitPosition) -> Code
    requires { HasFrameRoom (core.map (core_entries (list.map core_pair pairs.now))) position }
    ensures { IfOk result (λ code. code.items ≡ piece_of (core.map (core_entries (list.map core_pair pairs.now))) position.entry) }
{
    let mut entries = Vec::new(alloc);
    let mut slot = position.slot + aggregates::HEAD_SLOTS;
    for (key, value) in pairs {
        let place = EmitPosition {
            word: position.word + 1,
            slot,
            ..position
        };
        let (first, slots) = part(alloc, key, place)?;
        let behind = EmitPosition {
            word: position.word + 2,
            slot: slot + slots + aggregates::KEY_SLOTS,
            ..position
        };
        let (second, slots) = part(alloc, value, behind)?;
        aggregates::add_entry(&mut entries, &first, &second, position.word)?;
        slot = behind.slot + slots + aggregates::PUT_SLOTS;
    }
    aggregates::map(alloc, &entries, position.word)
}

/// A function call.
#[cycle(code)]
fn call(alloc: Global, callee: &Callee, arguments: &[Core], position: EmitPosition) -> Code
    requires { HasFrameRoom (core.call (callee_view callee.now) (cores (list.map core_view arguments.now))) position }
    ensures { IfOk result (λ code. code.items ≡ piece_of (core.call (callee_view callee.now) (cores (list.map core_view arguments.now))) position.entry) }
{
    match arguments {
        [argument] => {
            let of = operand(alloc, argument, position)?;
            names::function(alloc, callee, &of)
        }
        _ => names::nothing(alloc),
    }
}

/// A method call.
#[cycle(code)]
fn method(
    alloc: Global,
    of: &Core,
    callee: &Callee,
    arguments: &[Core],
    position: EmitPosition,
) -> Code
    requires { HasFrameRoom (core.method (core_view of.now) (callee_view callee.now) (cores (list.map core_view arguments.now))) position }
    ensures { IfOk result (λ code. code.items ≡ piece_of (core.method (core_view of.now) (callee_view callee.now) (cores (list.map core_view arguments.now))) position.entry) }
{
    match arguments {
        [] => {
            let of = operand(alloc, of, position)?;
            names::method(alloc, callee, &of)
        }
        [argument] => {
            let (left, right) = operands(alloc, of, argument, position)?;
            names::test(alloc, callee, &left, &right, position.word)
        }
        _ => names::nothing(alloc),
    }
}

/// A conditional.
#[cycle(code)]
fn ternary(alloc: Global, test: &Core, yes: &Core, no: &Core, position: EmitPosition) -> Code
    requires { HasFrameRoom (core.ternary (core_view test.now) (core_view yes.now) (core_view no.now)) position }
    ensures { IfOk result (λ code. code.items ≡ piece_of (core.ternary (core_view test.now) (core_view yes.now) (core_view no.now)) position.entry) }
{
    let (condition, slots) = part(alloc, test, position)?;
    let behind_condition = EmitPosition {
        slot: position.slot + slots + logic::TERNARY_JUMP_SLOTS,
        ..position
    };
    let (first, slots) = part(alloc, yes, behind_condition)?;
    let behind_first = EmitPosition {
        slot: behind_condition.slot + slots + logic::BRANCH_SLOTS,
        ..position
    };
    let (second, _) = part(alloc, no, behind_first)?;
    logic::ternary(alloc, &condition, &first, &second)
}

/// A macro with one part.
#[cycle(code)]
fn fold(alloc: Global, found: Macro, over: Iteration, body: &Core, position: EmitPosition) -> Code
    requires { HasFrameRoom (core.fold found over.name.now (core_view over.range.now) (core_view body.now)) position }
    ensures { IfOk result (λ code. code.items ≡ piece_of (core.fold found over.entry.name.now (core_view over.entry.range.now) (core_view body.now)) position.entry) }
{
    let (items, slots) = part(alloc, over.range, position)?;
    let within = FrameWords::Within(over.name, position.word + folds::ITEM, &*position.words);
    let inside = EmitPosition {
        words: &within,
        word: position.word + folds::LOOP_WORDS,
        slot: position.slot + slots + folds::SLOTS_BEFORE_TURN,
        ..position
    };
    let (turn, _) = part(alloc, body, inside)?;
    folds::macro_of(alloc, found, &items, &turn, position.word)
}

/// `map` with a predicate and a transform.
#[cycle(code)]
fn fold_map(
    alloc: Global,
    over: Iteration,
    test: &Core,
    body: &Core,
    position: EmitPosition,
) -> Code
    requires { HasFrameRoom (core.fold_map over.name.now (core_view over.range.now) (core_view test.now) (core_view body.now)) position }
    ensures { IfOk result (λ code. code.items ≡ piece_of (core.fold_map over.entry.name.now (core_view over.entry.range.now) (core_view test.now) (core_view body.now)) position.entry) }
{
    let (items, slots) = part(alloc, over.range, position)?;
    let within = FrameWords::Within(over.name, position.word + folds::ITEM, &*position.words);
    let inside = EmitPosition {
        words: &within,
        word: position.word + folds::LOOP_WORDS,
        slot: position.slot + slots + folds::SLOTS_BEFORE_TURN,
        ..position
    };
    let (first, slots) = part(alloc, test, inside)?;
    let behind = EmitPosition {
        slot: inside.slot + slots + folds::PREDICATE_SLOTS,
        ..inside
    };
    let (turn, _) = part(alloc, body, behind)?;
    folds::map_where(alloc, &items, &first, &turn, position.word)
}

/// The code of the expression at the position. The words of the frame hold the items of the macros
/// around it.
#[cycle(code)]
pub(crate) fn code_of(alloc: Global, core: &Core, position: EmitPosition) -> Code
    requires { HasFrameRoom (core_view core.now) position }
    ensures { IfOk result (λ code. code.items ≡ piece_of (core_view core.now) position.entry) }
{
    match core {
        Core::Literal(literal) => literals::literal(alloc, position.around.texts, literal),
        Core::Name(name) => names::leaf(alloc, names::name_leaf(name, position.words)),
        Core::Variable(name) => variables::variable(alloc, name, position.around, position.slot),
        Core::Select(of, field) => select(alloc, of, field, position),
        Core::Has(of, field) => {
            let of = operand(alloc, of, position)?;
            selection::has(alloc, &of, position.around.texts, field)
        }
        Core::Unary(op, of) => {
            let of = operand(alloc, of, position)?;
            operators::unary(alloc, *op, &of)
        }
        Core::Index(of, at) => index(alloc, of, at, position),
        Core::Binary(op, left, right) => binary(alloc, *op, left, right, position),
        Core::Call(callee, arguments) => call(alloc, callee, arguments, position),
        Core::Method(of, callee, arguments) => method(alloc, of, callee, arguments, position),
        Core::Ternary(test, yes, no) => ternary(alloc, test, yes, no, position),
        Core::List(parts) => list(alloc, parts, position),
        Core::Map(pairs) => map(alloc, pairs, position),
        Core::Fold(found, name, range, body) => {
            fold(alloc, *found, Iteration { name, range }, body, position)
        }
        Core::FoldMap(name, range, test, body) => {
            fold_map(alloc, Iteration { name, range }, test, body, position)
        }
    }
}
