//! The reader: a function for each row of the grammar.

ghost use Rattle.std.specs.Prelude.{◌≡◌, ◌<◌, ◌≤◌, ◌∷◌, [], ◌++◌, List, length, IfOk, option_map, string_bytes};
ghost use Rattle.std.specs.Prelude as list;
ghost use Rattle.wide_reader.specs.Tree as node;
ghost use Rattle.wide_reader.specs.Tree.{Wide as Tree, view, item_view, entry_view};
ghost use Rattle.wide_reader.specs.Grammar as row;
ghost use Rattle.wide_reader.specs.Grammar.{One, Many, Listed, Keyed, below};
ghost use Rattle.wide_reader.specs.Forms.{method_of};
ghost use Rattle.wide_reader.specs.Look.{words};
ghost use Rattle.wide_reader.specs.Reading.{ReturnsWideOutcome, Leads, WideStepReads, WidePlanRuns, maybe_call, with_arguments, branches, Got, Row, Selection, Indexed, Enclosed, Called, Bracketed, Mapped, Entry, BehindEntry};

use crate::closing::Closing;
use crate::level::Level;
use crate::look::{
    access_at, after, end_at, identifier_at, literal_at, operator_at, prefix_at, prefixes,
    quoted_at, selector_at,
};
use crate::name::name_of;
use crate::phrase::{self, Named, Read};
use crate::refusal::{misfit, too_deep};
use crate::wide::{Access, Wide};
use cel_tokens::Mark;
use std::alloc::Global;
use wide_tokens::Token;

/// The expression that is first, with `room` more brackets and conditionals to open, and the tokens after it.
#[cycle(reader)]
pub fn expression<'a>(alloc: Global, text: &'a [u8], tokens: &'a [Token], room: u8) -> Read<'a>
    ensures reads { ReturnsWideOutcome (λ x. Got (One (view x.0)) (words text.now x.1.now)) result (WideStepReads (Row row.Expression) room (words text.now tokens.now)) }
    ensures shorter { IfOk result (λ x. length x.1.now < length tokens.now) }
{
    let (condition, rest) = infix(alloc, text, tokens, Level::Or, room)?;
    let Some(yes_tokens) = after(text, rest, Mark::Question) else {
        return Ok((condition, rest));
    };
    let branches = branches(alloc, text, yes_tokens, room);
    phrase::ternary(alloc, condition, branches)
}

/// The branches of a conditional, after its question mark.
#[cycle(reader)]
fn branches<'a>(
    alloc: Global,
    text: &'a [u8],
    yes_tokens: &'a [Token],
    room: u8,
) -> Read<'a, (Wide, Wide)>
    ensures reads { (a : Tree) → ReturnsWideOutcome (λ x. Got (One (node.ternary a (view x.0.0) (view x.0.1))) (words text.now x.1.now)) result (WidePlanRuns (branches a) room (words text.now yes_tokens.now)) }
    ensures shorter { IfOk result (λ x. length x.1.now < length yes_tokens.now) }
{
    if room == 0 {
        return Err(too_deep(yes_tokens));
    }
    let yes = infix(alloc, text, yes_tokens, Level::Or, room - 1);
    let (yes, no_tokens) = phrase::up_to(text, Mark::Colon, yes)?;
    let no = expression(alloc, text, no_tokens, room - 1);
    phrase::pair(yes, no)
}

/// An operand of the level and its operators, from the left.
#[cycle(reader)]
fn infix<'a>(alloc: Global, text: &'a [u8], tokens: &'a [Token], level: Level, room: u8) -> Read<'a>
    ensures reads { ReturnsWideOutcome (λ x. Got (One (view x.0)) (words text.now x.1.now)) result (WideStepReads (Row (row.Infix level)) room (words text.now tokens.now)) }
    ensures shorter { IfOk result (λ x. length x.1.now < length tokens.now) }
{
    let (mut left, mut rest) = operand(alloc, text, tokens, level, room)?;
    while let Some((operator, right_tokens)) = operator_at(text, rest, level) {
        let right = operand(alloc, text, right_tokens, level, room);
        let (joined, end) = phrase::binary(alloc, operator, left, right)?;
        left = joined;
        rest = end;
    }
    Ok((left, rest))
}

/// An operand of the level's operators.
#[cycle(reader)]
fn operand<'a>(
    alloc: Global,
    text: &'a [u8],
    tokens: &'a [Token],
    level: Level,
    room: u8,
) -> Read<'a>
    ensures reads { ReturnsWideOutcome (λ x. Got (One (view x.0)) (words text.now x.1.now)) result (WideStepReads (Row (below level)) room (words text.now tokens.now)) }
    ensures shorter { IfOk result (λ x. length x.1.now < length tokens.now) }
{
    match level {
        Level::Or => infix(alloc, text, tokens, Level::And, room),
        Level::And => infix(alloc, text, tokens, Level::Relation, room),
        Level::Relation => infix(alloc, text, tokens, Level::Sum, room),
        Level::Sum => infix(alloc, text, tokens, Level::Product, room),
        Level::Product => unary(alloc, text, tokens, room),
    }
}

/// A member and the operators before it.
#[cycle(reader)]
fn unary<'a>(alloc: Global, text: &'a [u8], tokens: &'a [Token], room: u8) -> Read<'a>
    ensures reads { ReturnsWideOutcome (λ x. Got (One (view x.0)) (words text.now x.1.now)) result (WideStepReads (Row row.Unary) room (words text.now tokens.now)) }
    ensures shorter { IfOk result (λ x. length x.1.now < length tokens.now) }
{
    let Some((operator, behind)) = prefix_at(text, tokens) else {
        return member(alloc, text, tokens, room);
    };
    let (odd, rest) = prefixes(text, behind, operator);
    let operand = member(alloc, text, rest, room);
    phrase::applied(alloc, operator, odd, operand)
}

/// A primary with its selections, calls and indexes.
#[cycle(reader)]
fn member<'a>(alloc: Global, text: &'a [u8], tokens: &'a [Token], room: u8) -> Read<'a>
    ensures reads { ReturnsWideOutcome (λ x. Got (One (view x.0)) (words text.now x.1.now)) result (WideStepReads (Row row.Member) room (words text.now tokens.now)) }
    ensures shorter { IfOk result (λ x. length x.1.now < length tokens.now) }
{
    let (mut tree, mut rest) = primary(alloc, text, tokens, room)?;
    loop {
        if let Some(behind) = after(text, rest, Mark::Dot) {
            let named = selection(alloc, text, behind, room);
            let (selected, end) = phrase::selection(alloc, tree, named)?;
            tree = selected;
            rest = end;
        } else if let Some(behind) = after(text, rest, Mark::OpenBracket) {
            let at = indexed(alloc, text, behind, room);
            let (indexed, end) = phrase::index(alloc, tree, at)?;
            tree = indexed;
            rest = end;
        } else {
            return Ok((tree, rest));
        }
    }
}

/// The name after a dot, and its arguments if it is called.
#[cycle(reader)]
fn selection<'a>(
    alloc: Global,
    text: &'a [u8],
    tokens: &'a [Token],
    room: u8,
) -> Read<'a, (Access, Named)>
    ensures reads { (a : Tree) → ReturnsWideOutcome (λ x. Got (One (with_arguments (node.select a x.0.0 (string_bytes x.0.1.0)) (λ more. method_of a (string_bytes x.0.1.0) (node.wides more)) (option_map (λ v. list.map view v.items) x.0.1.1))) (words text.now x.1.now)) result (WideStepReads (Selection a) room (words text.now tokens.now)) }
    ensures shorter { IfOk result (λ x. length x.1.now < length tokens.now) }
{
    let (access, name_tokens) = access_at(text, tokens);
    if let Some((name, rest)) = quoted_at(text, name_tokens) {
        let name = name_of(alloc, name)?;
        return Ok(((access, (name, None)), rest));
    }
    let Some((name, rest)) = selector_at(text, name_tokens) else {
        return Err(misfit(name_tokens));
    };
    let name = name_of(alloc, name)?;
    match access {
        Access::Optional => Ok(((access, (name, None)), rest)),
        Access::Plain => {
            let named = phrase::pair(name, maybe_arguments(alloc, text, rest, room));
            phrase::pair(access, named)
        }
    }
}

/// The index after a member's bracket.
#[cycle(reader)]
fn indexed<'a>(
    alloc: Global,
    text: &'a [u8],
    tokens: &'a [Token],
    room: u8,
) -> Read<'a, (Access, Wide)>
    ensures reads { (a : Tree) → ReturnsWideOutcome (λ x. Got (One (node.index a x.0.0 (view x.0.1))) (words text.now x.1.now)) result (WideStepReads (Indexed a) room (words text.now tokens.now)) }
    ensures shorter { IfOk result (λ x. length x.1.now < length tokens.now) }
{
    if room == 0 {
        return Err(too_deep(tokens));
    }
    let (access, at_tokens) = access_at(text, tokens);
    let at = expression(alloc, text, at_tokens, room - 1);
    phrase::pair(access, phrase::up_to(text, Mark::CloseBracket, at))
}

/// A name, a call, a literal or an expression in brackets.
#[cycle(reader)]
fn primary<'a>(alloc: Global, text: &'a [u8], tokens: &'a [Token], room: u8) -> Read<'a>
    ensures reads { ReturnsWideOutcome (λ x. Got (One (view x.0)) (words text.now x.1.now)) result (WideStepReads (Row row.Primary) room (words text.now tokens.now)) }
    ensures shorter { IfOk result (λ x. length x.1.now < length tokens.now) }
{
    if let Some(inside) = after(text, tokens, Mark::OpenParen) {
        return enclosed(alloc, text, inside, room);
    }
    if let Some(inside) = after(text, tokens, Mark::OpenBracket) {
        let items = items(alloc, text, inside, room);
        return phrase::list(items);
    }
    if let Some(inside) = after(text, tokens, Mark::OpenBrace) {
        let entries = entries(alloc, text, inside, room);
        return phrase::map(entries);
    }
    if let Some((literal, rest)) = literal_at(alloc, text, tokens)? {
        return Ok((literal, rest));
    }
    if let Some(behind) = after(text, tokens, Mark::Dot) {
        let Some((name, rest)) = identifier_at(text, behind) else {
            return Err(misfit(behind));
        };
        let name = name_of(alloc, name)?;
        let arguments = maybe_arguments(alloc, text, rest, room);
        return phrase::root(name, arguments);
    }
    let Some((name, rest)) = identifier_at(text, tokens) else {
        return Err(misfit(tokens));
    };
    let name = name_of(alloc, name)?;
    let arguments = maybe_arguments(alloc, text, rest, room);
    phrase::call(name, arguments)
}

/// The expression after a parenthesis, up to the closing one.
#[cycle(reader)]
fn enclosed<'a>(alloc: Global, text: &'a [u8], tokens: &'a [Token], room: u8) -> Read<'a>
    ensures reads { ReturnsWideOutcome (λ x. Got (One (view x.0)) (words text.now x.1.now)) result (WideStepReads Enclosed room (words text.now tokens.now)) }
    ensures shorter { IfOk result (λ x. length x.1.now < length tokens.now) }
{
    if room == 0 {
        return Err(too_deep(tokens));
    }
    let inner = expression(alloc, text, tokens, room - 1);
    phrase::up_to(text, Mark::CloseParen, inner)
}

/// The arguments of a call, if a parenthesis follows.
#[cycle(reader)]
fn maybe_arguments<'a>(
    alloc: Global,
    text: &'a [u8],
    tokens: &'a [Token],
    room: u8,
) -> Read<'a, Option<Vec<Wide>>>
    ensures reads { (a : Tree) (of : List Tree → Tree) → ReturnsWideOutcome (λ x. Got (One (with_arguments a of (option_map (λ v. list.map view v.items) x.0))) (words text.now x.1.now)) result (WidePlanRuns (maybe_call a of) room (words text.now tokens.now)) }
    ensures shorter { IfOk result (λ x. length x.1.now ≤ length tokens.now) }
{
    let Some(inside) = after(text, tokens, Mark::OpenParen) else {
        return Ok((None, tokens));
    };
    let (arguments, end) = arguments(alloc, text, inside, room)?;
    Ok((Some(arguments), end))
}

/// The arguments after a parenthesis, up to the closing one.
#[cycle(reader)]
fn arguments<'a>(
    alloc: Global,
    text: &'a [u8],
    tokens: &'a [Token],
    room: u8,
) -> Read<'a, Vec<Wide>>
    ensures reads { ReturnsWideOutcome (λ x. Got (Many (list.map view x.0.items)) (words text.now x.1.now)) result (WideStepReads Called room (words text.now tokens.now)) }
    ensures shorter { IfOk result (λ x. length x.1.now < length tokens.now) }
{
    if room == 0 {
        return Err(too_deep(tokens));
    }
    if let Some(end) = end_at(text, tokens, Closing::Call) {
        return Ok((Vec::new(alloc), end));
    }
    let mut arguments = Vec::new(alloc);
    let mut rest = tokens;
    loop {
        let argument = expression(alloc, text, rest, room - 1);
        let (grown, argument_end) = phrase::pushed(arguments, argument)?;
        if let Some(end) = end_at(text, argument_end, Closing::Call) {
            return Ok((grown, end));
        }
        let Some(behind) = after(text, argument_end, Mark::Comma) else {
            return Err(misfit(argument_end));
        };
        arguments = grown;
        rest = behind;
    }
}

/// The items after a bracket, up to the list's end.
#[cycle(reader)]
fn items<'a>(
    alloc: Global,
    text: &'a [u8],
    tokens: &'a [Token],
    room: u8,
) -> Read<'a, Vec<(Access, Wide)>>
    ensures reads { ReturnsWideOutcome (λ x. Got (Listed (list.map item_view x.0.items)) (words text.now x.1.now)) result (WideStepReads Bracketed room (words text.now tokens.now)) }
    ensures shorter { IfOk result (λ x. length x.1.now < length tokens.now) }
{
    if room == 0 {
        return Err(too_deep(tokens));
    }
    if let Some(end) = end_at(text, tokens, Closing::List) {
        return Ok((Vec::new(alloc), end));
    }
    if let Some(behind) = after(text, tokens, Mark::Comma) {
        return Err(misfit(behind));
    }
    let mut items = Vec::new(alloc);
    let mut rest = tokens;
    loop {
        let (access, item_tokens) = access_at(text, rest);
        let item = expression(alloc, text, item_tokens, room - 1);
        let (grown, item_end) = phrase::pushed(items, phrase::pair(access, item))?;
        if let Some(end) = end_at(text, item_end, Closing::List) {
            return Ok((grown, end));
        }
        let Some(behind) = after(text, item_end, Mark::Comma) else {
            return Err(misfit(item_end));
        };
        items = grown;
        rest = behind;
    }
}

/// The entries after a brace, up to the map's end.
#[cycle(reader)]
fn entries<'a>(
    alloc: Global,
    text: &'a [u8],
    tokens: &'a [Token],
    room: u8,
) -> Read<'a, Vec<(Access, Wide, Wide)>>
    ensures reads { ReturnsWideOutcome (λ x. Got (Keyed (list.map entry_view x.0.items)) (words text.now x.1.now)) result (WideStepReads Mapped room (words text.now tokens.now)) }
    ensures shorter { IfOk result (λ x. length x.1.now < length tokens.now) }
{
    if room == 0 {
        return Err(too_deep(tokens));
    }
    if let Some(end) = end_at(text, tokens, Closing::Map) {
        return Ok((Vec::new(alloc), end));
    }
    if let Some(behind) = after(text, tokens, Mark::Comma) {
        return Err(misfit(behind));
    }
    let mut entries = Vec::new(alloc);
    let mut rest = tokens;
    loop {
        let entry = entry(alloc, text, rest, room - 1);
        let (grown, entry_end) = phrase::pushed(entries, entry)?;
        if let Some(end) = end_at(text, entry_end, Closing::Map) {
            return Ok((grown, end));
        }
        let Some(behind) = after(text, entry_end, Mark::Comma) else {
            return Err(misfit(entry_end));
        };
        entries = grown;
        rest = behind;
    }
}

/// A key, a colon and a value, after a question mark if there is one.
#[cycle(reader)]
fn entry<'a>(
    alloc: Global,
    text: &'a [u8],
    tokens: &'a [Token],
    room: u8,
) -> Read<'a, (Access, Wide, Wide)>
    ensures reads { (before : List (Access × Tree × Tree)) → Leads result (λ x o. WideStepReads (BehindEntry (before ++ entry_view x.0 ∷ [])) room (words text.now x.1.now) o) (WideStepReads (Entry before) room (words text.now tokens.now)) }
    ensures shorter { IfOk result (λ x. length x.1.now < length tokens.now) }
{
    let (access, key_tokens) = access_at(text, tokens);
    let key = expression(alloc, text, key_tokens, room);
    let (key, value_tokens) = phrase::up_to(text, Mark::Colon, key)?;
    let value = expression(alloc, text, value_tokens, room);
    phrase::entry(access, key, value)
}
