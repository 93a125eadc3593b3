//! The lists of literals whose values a frame keeps.
#![tactic(auto, unfolding(crate::specs::Code::KeptLists::with_lists_of))]

ghost use Rattle.std.specs.Prelude.{◌≡◌, ◌≤◌, length, bytes_eq, IfOk, OnOk};
ghost use Rattle.std.specs.Prelude as list;
ghost use Rattle.value_store.specs.Equality.{int_equal, truth_equal};
ghost use Rattle.cel_macros.specs.CoreView.{core_view, cores, core_entries};
ghost use Rattle.cel_macros.specs.Expanding.{core_pair};
ghost use Rattle.cel_reader.specs.Tree.{literal_view};
ghost use Rattle.tree_code.specs.Code.KeptLists as specs;
ghost use Rattle.tree_code.specs.FrameWords.{lists_view, words_of};

use crate::frame_words::FrameWords;
use cel_macros::Core;
use cel_reader::Literal;
use std::alloc::{AllocError, Global};

/// The largest number of lists that a frame keeps.
const LIST_LIMIT: usize = 4;

fn same_int(a: i64, b: i64) -> bool
    ensures { result ≡ int_equal a b }
{
    a == b
}

fn same_truth(a: bool, b: bool) -> bool
    ensures { result ≡ truth_equal a b }
{
    a == b
}

fn same_text(a: &str, b: &str) -> bool
    ensures { result ≡ bytes_eq a.now b.now }
{
    a == b
}

/// Whether both literals are the same.
fn same_literal(a: &Literal, b: &Literal) -> bool
    ensures { result ≡ specs.same_literal (literal_view a.now) (literal_view b.now) }
{
    match (a, b) {
        (Literal::Int(a), Literal::Int(b)) => same_int(*a, *b),
        (Literal::Text(a), Literal::Text(b)) => same_text(a.as_str(), b.as_str()),
        (Literal::Bool(a), Literal::Bool(b)) => same_truth(*a, *b),
        (Literal::Null, Literal::Null) => true,
        _ => false,
    }
}

/// Whether both are the same literal.
fn same_item(a: &Core, b: &Core) -> bool
    ensures { result ≡ specs.same_item (core_view a.now) (core_view b.now) }
{
    match (a, b) {
        (Core::Literal(a), Core::Literal(b)) => same_literal(a, b),
        (_, _) => false,
    }
}

/// Whether both lists have the same literals.
#[tactic(auto, using(crate::proofs::KeptLists::same))]
fn same_items(a: &[Core], b: &[Core]) -> bool
    ensures { result ≡ specs.same_items (cores (list.map core_view a.now)) (cores (list.map core_view b.now)) }
{
    if a.len() != b.len() {
        return false;
    }
    for i in 0..a.len() {
        if !same_item(&a[i], &b[i]) {
            return false;
        }
    }
    true
}

/// The number of the first of the kept lists that has these items.
#[tactic(auto, using(crate::proofs::KeptLists::places))]
fn place_among(items: &[Core], lists: &[&[Core]]) -> Option<usize>
    ensures { result ≡ specs.kept_place (cores (list.map core_view items.now)) (lists_view lists.now) }
{
    for place in 0..lists.len() {
        if same_items(lists[place], items) {
            return Some(place);
        }
    }
    None
}

/// The number under which the frame keeps the list with these items.
pub(crate) fn kept_place(items: &[Core], words: &FrameWords) -> Option<usize>
    ensures { result ≡ specs.kept_place (cores (list.map core_view items.now)) (words_of words.now).lists }
{
    match words {
        FrameWords::Outside(lists) | FrameWords::Keeping(_, lists) => place_among(items, lists),
        FrameWords::Within(_, _, outer) => kept_place(items, outer),
    }
}

fn is_literal(core: &Core) -> bool
    ensures { result ≡ specs.is_literal (core_view core.now) }
{
    match core {
        Core::Literal(_) => true,
        _ => false,
    }
}

#[tactic(auto, using(crate::proofs::KeptLists::literals))]
fn are_literals(items: &[Core]) -> bool
    ensures { result ≡ specs.are_literals (cores (list.map core_view items.now)) }
{
    for item in items {
        if !is_literal(item) {
            return false;
        }
    }
    true
}

/// Adds the list, if it is inside a macro, there is room and it is not already there.
#[tactic(auto, using(crate::proofs::KeptLists::views))]
fn add_list<'a>(
    items: &'a [Core],
    inside: bool,
    lists: &mut Vec<&'a [Core]>,
) -> Result<(), AllocError>
    ensures { OnOk result (lists_view lists.new.items ≡ specs.with_list inside (lists_view lists.old.items) (cores (list.map core_view items.now))) }
{
    if inside
        && are_literals(items)
        && lists.len() < LIST_LIMIT
        && place_among(items, lists.as_slice()).is_none()
    {
        lists.push(items)?;
    }
    Ok(())
}

/// Adds the lists of literals in each of these expressions.
#[cycle(lists)]
fn add_each<'a>(
    parts: &'a [Core],
    inside: bool,
    lists: &mut Vec<&'a [Core]>,
) -> Result<(), AllocError>
    ensures { OnOk result (lists_view lists.new.items ≡ specs.with_lists_of_each inside (lists_view lists.old.items) (cores (list.map core_view parts.now))) }
{
    for part in parts {
        add_lists(part, inside, lists)?;
    }
    Ok(())
}

/// Adds the lists of literals in each of these keys and values.
#[cycle(lists)]
fn add_entries<'a>(
    pairs: &'a [(Core, Core)],
    inside: bool,
    lists: &mut Vec<&'a [Core]>,
) -> Result<(), AllocError>
    ensures { OnOk result (lists_view lists.new.items ≡ specs.with_lists_of_entries inside (lists_view lists.old.items) (core_entries (list.map core_pair pairs.now))) }
{
    for (key, value) in pairs {
        add_lists(key, inside, lists)?;
        add_lists(value, inside, lists)?;
    }
    Ok(())
}

/// Adds the lists of literals in the expression, which is inside a macro or outside all macros.
#[cycle(lists)]
fn add_lists<'a>(
    core: &'a Core,
    inside: bool,
    lists: &mut Vec<&'a [Core]>,
) -> Result<(), AllocError>
    ensures { OnOk result (lists_view lists.new.items ≡ specs.with_lists_of inside (lists_view lists.old.items) (core_view core.now)) }
{
    match core {
        Core::Literal(_) | Core::Name(_) | Core::Variable(_) => Ok(()),
        Core::Select(of, _) | Core::Has(of, _) | Core::Unary(_, of) => add_lists(of, inside, lists),
        Core::Index(a, b) | Core::Binary(_, a, b) => {
            add_lists(a, inside, lists)?;
            add_lists(b, inside, lists)
        }
        Core::Call(_, arguments) => add_each(arguments.as_slice(), inside, lists),
        Core::Method(of, _, arguments) => {
            add_lists(of, inside, lists)?;
            add_each(arguments.as_slice(), inside, lists)
        }
        Core::Ternary(a, b, c) => {
            add_lists(a, inside, lists)?;
            add_lists(b, inside, lists)?;
            add_lists(c, inside, lists)
        }
        Core::List(items) => {
            add_list(items.as_slice(), inside, lists)?;
            add_each(items.as_slice(), inside, lists)
        }
        Core::Map(pairs) => add_entries(pairs.as_slice(), inside, lists),
        Core::Fold(_, _, range, body) => {
            add_lists(range, inside, lists)?;
            add_lists(body, true, lists)
        }
        Core::FoldMap(_, range, test, body) => {
            add_lists(range, inside, lists)?;
            add_lists(test, true, lists)?;
            add_lists(body, true, lists)
        }
    }
}

/// The items of each list that the frame of the expression keeps.
#[tactic(auto, using(crate::proofs::KeptLists::views))]
pub(crate) fn kept_lists(alloc: Global, core: &Core) -> Result<Vec<&[Core]>, AllocError>
    ensures lists { IfOk result (λ lists. lists_view lists.items ≡ specs.kept_lists (core_view core.now)) }
    ensures few { IfOk result (λ lists. length lists.items ≤ specs.list_limit) }
{
    let mut lists = Vec::new(alloc);
    add_lists(core, false, &mut lists)?;
    lists.truncate(LIST_LIMIT);
    Ok(lists)
}
