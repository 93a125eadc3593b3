//! The reader: a function for each row of the grammar.

ghost use Rattle.std.specs.Prelude.{◌≡◌, ◌<◌, ◌≤◌, ◌∷◌, [], ◌++◌, List, length, IfOk, option_map, string_bytes};
ghost use Rattle.std.specs.Prelude as list;
ghost use Rattle.cel_reader.specs.Tree as node;
ghost use Rattle.cel_reader.specs.Tree.{Tree, view, entry_view};
ghost use Rattle.cel_reader.specs.Grammar as row;
ghost use Rattle.cel_reader.specs.Grammar.{One, Many, Keyed, below};
ghost use Rattle.cel_reader.specs.Look.{words};
ghost use Rattle.cel_reader.specs.Reading.{ReturnsOutcome, PhraseLeads, StepReads, PlanRuns, Got, Row, Selection, Enclosed, Listed, Mapped, Entry, BehindEntry, branches, maybe_call, with_arguments};

use crate::build;
use crate::closing::Closing;
use crate::expr::Expr;
use crate::level::Level;
use crate::look::{
    after, end_at, identifier_at, literal_at, operator_at, prefix_at, prefixes, selector_at,
};
use crate::name::name_of;
use crate::phrase::{self, Named, Read};
use crate::refusal::{lone_comma, misfit, too_deep};
use cel_tokens::{Mark, Token};
use std::alloc::Global;

/// The expression that is first, with `room` more brackets and conditionals to open, and the tokens after it.
#[cycle(reader)]
pub fn expression<'a>(alloc: Global, text: &'a [u8], tokens: &'a [Token], room: u8) -> Read<'a>
    ensures reads { ReturnsOutcome (λ x. Got (One (view x.0)) (words text.now x.1.now)) result (StepReads (Row row.Expression) room (words text.now tokens.now)) }
    ensures shorter { IfOk result (λ x. length x.1.now < length tokens.now) }
{
    let (condition, rest) = infix(alloc, text, tokens, Level::Or, room)?;
    let Some(yes_tokens) = after(text, rest, Mark::Question) else {
        return Ok((condition, rest));
    };
    let branches = branches(alloc, text, yes_tokens, room);
    phrase::ternary(alloc, condition, branches)
}

/// The branches of a conditional, after its question mark.
#[cycle(reader)]
fn branches<'a>(
    alloc: Global,
    text: &'a [u8],
    yes_tokens: &'a [Token],
    room: u8,
) -> Read<'a, (Expr, Expr)>
    ensures reads { (a : Tree) → ReturnsOutcome (λ x. Got (One (node.ternary a (view x.0.0) (view x.0.1))) (words text.now x.1.now)) result (PlanRuns (branches a) room (words text.now yes_tokens.now)) }
    ensures shorter { IfOk result (λ x. length x.1.now < length yes_tokens.now) }
{
    if room == 0 {
        return Err(too_deep(yes_tokens));
    }
    let yes = infix(alloc, text, yes_tokens, Level::Or, room - 1);
    let (yes, no_tokens) = phrase::up_to(text, Mark::Colon, yes)?;
    let no = expression(alloc, text, no_tokens, room - 1);
    phrase::pair(yes, no)
}

/// An operand of the level and its operators, from the left.
#[cycle(reader)]
fn infix<'a>(alloc: Global, text: &'a [u8], tokens: &'a [Token], level: Level, room: u8) -> Read<'a>
    ensures reads { ReturnsOutcome (λ x. Got (One (view x.0)) (words text.now x.1.now)) result (StepReads (Row (row.Infix level)) room (words text.now tokens.now)) }
    ensures shorter { IfOk result (λ x. length x.1.now < length tokens.now) }
{
    let (mut left, mut rest) = operand(alloc, text, tokens, level, room)?;
    while let Some((operator, right_tokens)) = operator_at(text, rest, level) {
        let right = operand(alloc, text, right_tokens, level, room);
        let (joined, end) = phrase::binary(alloc, operator, left, right)?;
        left = joined;
        rest = end;
    }
    Ok((left, rest))
}

/// An operand of the level's operators.
#[cycle(reader)]
fn operand<'a>(
    alloc: Global,
    text: &'a [u8],
    tokens: &'a [Token],
    level: Level,
    room: u8,
) -> Read<'a>
    ensures reads { ReturnsOutcome (λ x. Got (One (view x.0)) (words text.now x.1.now)) result (StepReads (Row (below level)) room (words text.now tokens.now)) }
    ensures shorter { IfOk result (λ x. length x.1.now < length tokens.now) }
{
    match level {
        Level::Or => infix(alloc, text, tokens, Level::And, room),
        Level::And => infix(alloc, text, tokens, Level::Relation, room),
        Level::Relation => infix(alloc, text, tokens, Level::Sum, room),
        Level::Sum => infix(alloc, text, tokens, Level::Product, room),
        Level::Product => unary(alloc, text, tokens, room),
    }
}

/// A member and the operators before it.
#[cycle(reader)]
fn unary<'a>(alloc: Global, text: &'a [u8], tokens: &'a [Token], room: u8) -> Read<'a>
    ensures reads { ReturnsOutcome (λ x. Got (One (view x.0)) (words text.now x.1.now)) result (StepReads (Row row.Unary) room (words text.now tokens.now)) }
    ensures shorter { IfOk result (λ x. length x.1.now < length tokens.now) }
{
    let Some((operator, behind)) = prefix_at(text, tokens) else {
        return member(alloc, text, tokens, room);
    };
    let (count, rest) = prefixes(text, behind, operator);
    let operand = member(alloc, text, rest, room);
    phrase::unary(alloc, operator, count, operand)
}

/// A primary with its selections, calls and indexes.
#[cycle(reader)]
fn member<'a>(alloc: Global, text: &'a [u8], tokens: &'a [Token], room: u8) -> Read<'a>
    ensures reads { ReturnsOutcome (λ x. Got (One (view x.0)) (words text.now x.1.now)) result (StepReads (Row row.Member) room (words text.now tokens.now)) }
    ensures shorter { IfOk result (λ x. length x.1.now < length tokens.now) }
{
    let (mut tree, mut rest) = primary(alloc, text, tokens, room)?;
    loop {
        if let Some(behind) = after(text, rest, Mark::Dot) {
            let named = selection(alloc, text, behind, room);
            let (selected, end) = phrase::selection(alloc, tree, named)?;
            tree = selected;
            rest = end;
        } else if let Some(behind) = after(text, rest, Mark::OpenBracket) {
            let at = enclosed(alloc, text, behind, Mark::CloseBracket, room);
            let (indexed, end) = phrase::index(alloc, tree, at)?;
            tree = indexed;
            rest = end;
        } else {
            return Ok((tree, rest));
        }
    }
}

/// The name after a dot, and its arguments if it is called.
#[cycle(reader)]
fn selection<'a>(alloc: Global, text: &'a [u8], tokens: &'a [Token], room: u8) -> Read<'a, Named>
    ensures reads { (a : Tree) → ReturnsOutcome (λ x. Got (One (with_arguments (node.select a (string_bytes x.0.0)) (λ items. node.method a (string_bytes x.0.0) (node.trees items)) (option_map (λ v. list.map view v.items) x.0.1))) (words text.now x.1.now)) result (StepReads (Selection a) room (words text.now tokens.now)) }
    ensures shorter { IfOk result (λ x. length x.1.now < length tokens.now) }
{
    let Some((name, rest)) = selector_at(text, tokens) else {
        return Err(misfit(tokens));
    };
    let name = name_of(alloc, name)?;
    let arguments = maybe_arguments(alloc, text, rest, room);
    phrase::pair(name, arguments)
}

/// A name, a call, a literal or an expression in brackets.
#[cycle(reader)]
fn primary<'a>(alloc: Global, text: &'a [u8], tokens: &'a [Token], room: u8) -> Read<'a>
    ensures reads { ReturnsOutcome (λ x. Got (One (view x.0)) (words text.now x.1.now)) result (StepReads (Row row.Primary) room (words text.now tokens.now)) }
    ensures shorter { IfOk result (λ x. length x.1.now < length tokens.now) }
{
    if let Some(inside) = after(text, tokens, Mark::OpenParen) {
        return enclosed(alloc, text, inside, Mark::CloseParen, room);
    }
    if let Some(inside) = after(text, tokens, Mark::OpenBracket) {
        let items = items(alloc, text, inside, Closing::List, room);
        return phrase::list(items);
    }
    if let Some(inside) = after(text, tokens, Mark::OpenBrace) {
        let entries = entries(alloc, text, inside, room);
        return phrase::map(entries);
    }
    if let Some((literal, rest)) = literal_at(alloc, text, tokens)? {
        return Ok((build::literal(literal), rest));
    }
    let Some((name, rest)) = identifier_at(text, tokens) else {
        return Err(misfit(tokens));
    };
    let name = name_of(alloc, name)?;
    let arguments = maybe_arguments(alloc, text, rest, room);
    phrase::call(name, arguments)
}

/// The arguments of a call, if a parenthesis follows.
#[cycle(reader)]
fn maybe_arguments<'a>(
    alloc: Global,
    text: &'a [u8],
    tokens: &'a [Token],
    room: u8,
) -> Read<'a, Option<Vec<Expr>>>
    ensures reads { (a : Tree) (of : List Tree → Tree) → ReturnsOutcome (λ x. Got (One (with_arguments a of (option_map (λ v. list.map view v.items) x.0))) (words text.now x.1.now)) result (PlanRuns (maybe_call a of) room (words text.now tokens.now)) }
    ensures shorter { IfOk result (λ x. length x.1.now ≤ length tokens.now) }
{
    let Some(inside) = after(text, tokens, Mark::OpenParen) else {
        return Ok((None, tokens));
    };
    let (arguments, end) = items(alloc, text, inside, Closing::Call, room)?;
    Ok((Some(arguments), end))
}

/// The expression after an opening bracket, up to its closing one.
#[cycle(reader)]
fn enclosed<'a>(
    alloc: Global,
    text: &'a [u8],
    tokens: &'a [Token],
    close: Mark,
    room: u8,
) -> Read<'a>
    ensures reads { ReturnsOutcome (λ x. Got (One (view x.0)) (words text.now x.1.now)) result (StepReads (Enclosed close) room (words text.now tokens.now)) }
    ensures shorter { IfOk result (λ x. length x.1.now < length tokens.now) }
{
    if room == 0 {
        return Err(too_deep(tokens));
    }
    let inner = expression(alloc, text, tokens, room - 1);
    phrase::up_to(text, close, inner)
}

/// The expressions after a bracket, up to the list's end.
#[cycle(reader)]
fn items<'a>(
    alloc: Global,
    text: &'a [u8],
    tokens: &'a [Token],
    closing: Closing,
    room: u8,
) -> Read<'a, Vec<Expr>>
    ensures reads { ReturnsOutcome (λ x. Got (Many (list.map view x.0.items)) (words text.now x.1.now)) result (StepReads (Listed closing) room (words text.now tokens.now)) }
    ensures shorter { IfOk result (λ x. length x.1.now < length tokens.now) }
{
    if room == 0 {
        return Err(too_deep(tokens));
    }
    if let Some(end) = end_at(text, tokens, closing) {
        return Ok((Vec::new(alloc), end));
    }
    if let Some(behind) = after(text, tokens, Mark::Comma) {
        return Err(lone_comma(tokens, behind, closing));
    }
    let mut items = Vec::new(alloc);
    let mut rest = tokens;
    loop {
        let item = expression(alloc, text, rest, room - 1);
        let (grown, item_end) = phrase::pushed(items, item)?;
        if let Some(end) = end_at(text, item_end, closing) {
            return Ok((grown, end));
        }
        let Some(behind) = after(text, item_end, Mark::Comma) else {
            return Err(misfit(item_end));
        };
        items = grown;
        rest = behind;
    }
}

/// The entries after a brace, up to the map's end.
#[cycle(reader)]
fn entries<'a>(
    alloc: Global,
    text: &'a [u8],
    tokens: &'a [Token],
    room: u8,
) -> Read<'a, Vec<(Expr, Expr)>>
    ensures reads { ReturnsOutcome (λ x. Got (Keyed (list.map entry_view x.0.items)) (words text.now x.1.now)) result (StepReads Mapped room (words text.now tokens.now)) }
    ensures shorter { IfOk result (λ x. length x.1.now < length tokens.now) }
{
    if room == 0 {
        return Err(too_deep(tokens));
    }
    if let Some(end) = end_at(text, tokens, Closing::Map) {
        return Ok((Vec::new(alloc), end));
    }
    if let Some(behind) = after(text, tokens, Mark::Comma) {
        return Err(misfit(behind));
    }
    let mut entries = Vec::new(alloc);
    let mut rest = tokens;
    loop {
        let entry = entry(alloc, text, rest, room - 1);
        let (grown, entry_end) = phrase::pushed(entries, entry)?;
        if let Some(end) = end_at(text, entry_end, Closing::Map) {
            return Ok((grown, end));
        }
        let Some(behind) = after(text, entry_end, Mark::Comma) else {
            return Err(misfit(entry_end));
        };
        entries = grown;
        rest = behind;
    }
}

/// A key, a colon and a value.
#[cycle(reader)]
fn entry<'a>(alloc: Global, text: &'a [u8], tokens: &'a [Token], room: u8) -> Read<'a, (Expr, Expr)>
    ensures reads { (pairs : List (Tree × Tree)) → PhraseLeads result (λ x o. StepReads (BehindEntry (pairs ++ entry_view x.0 ∷ [])) room (words text.now x.1.now) o) (StepReads (Entry pairs) room (words text.now tokens.now)) }
    ensures shorter { IfOk result (λ x. length x.1.now < length tokens.now) }
{
    let key = expression(alloc, text, tokens, room);
    let (key, value_tokens) = phrase::up_to(text, Mark::Colon, key)?;
    let value = expression(alloc, text, value_tokens, room);
    phrase::pair(key, value)
}
