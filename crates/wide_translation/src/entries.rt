//! Map literals, some of whose entries are optional.

ghost use Rattle.std.specs.Prelude.{◌≡◌, IfOk, IsOkAnd, MatchOption, string_bytes};
ghost use Rattle.std.specs.Prelude as list;
ghost use Rattle.cel_reader.specs.Tree as node;
ghost use Rattle.cel_reader.specs.Tree.{entries, entry_view, view};
ghost use Rattle.cel_reader.specs.declared.operator.BinaryOperator.TheVariants as operation;
ghost use Rattle.wide_kinds.specs.declared.kind.ValueKind.{ValueKind as KindOf};
ghost use Rattle.wide_kinds.specs.declared.kind.ValueKind.TheVariants as kind;
ghost use Rattle.wide_translation.specs.Carried.{Carried as CarriedAs, OptionalEntry, listed, plain, taken};
ghost use Rattle.wide_translation.specs.Declarations.{ReturnsCarried, ReturnsEntryPart, carried_view, parts_of, with_part};
ghost use Rattle.wide_translation.specs.Forms as forms;
ghost use Rattle.wide_translation.specs.Parts as specs;
ghost use Rattle.wide_reader.specs.declared.wide.Access.TheVariants as access;

use crate::built::{self, Built};
use crate::carried::{Carried, value_of};
use crate::copying::{copy, entry_copies};
use crate::entry_part::EntryPart;
use crate::translation_error::TranslationError;
use crate::{build, together};
use cel_reader::{BinaryOperator, Expr, Literal};
use std::alloc::{AllocError, Global};
use wide_kinds::ValueKind;
use wide_reader::Access;

/// The bytes of a text literal.
#[tactic(auto, using(crate::proofs::EntrySteps::no_text))]
fn text_of(key: Expr) -> Option<String>
    ensures { MatchOption result ((c : CarriedAs) (ps : specs.Pairs) → specs.keyed_more (view key) c ps ≡ specs.no_pairs OptionalEntry) (λ f. view key ≡ node.literal (node.text (string_bytes f))) }
{
    match key {
        Expr::Literal(Literal::Text(field)) => Some(field),
        _ => None,
    }
}

/// Whether a list has an item.
fn has_item(alloc: Global, of: &Expr) -> Built
    ensures { IfOk result (λ e. view e ≡ node.binary operation.NotEqual (view of.now) forms.empty_tree) }
{
    let empty = build::empty(alloc);
    built::binary(alloc, BinaryOperator::NotEqual, copy(alloc, of), Ok(empty))
}

/// An optional entry whose value is carried by a list.
#[tactic(auto, using(crate::proofs::EntrySteps::listed_more))]
fn of_list(alloc: Global, field: String, of: Expr) -> Result<EntryPart, TranslationError>
    ensures { (k : KindOf) → ReturnsEntryPart (specs.optional_more (string_bytes field) (listed k (view of))) result }
{
    let guard = has_item(alloc, &of);
    let (guard, item) = together::both(guard, build::first(alloc, of))?;
    Ok(EntryPart::Optional(field, guard, item))
}

/// An optional entry with a text as its key.
#[tactic(auto, using(crate::proofs::EntrySteps::guarded_more))]
fn of_text(alloc: Global, field: String, value: Carried) -> Result<EntryPart, TranslationError>
    ensures { ReturnsEntryPart (specs.optional_more (string_bytes field) (carried_view value)) result }
{
    match value {
        Carried::Plain(_, item) => {
            drop(item);
            drop(field);
            Err(TranslationError::OptionalValue)
        }
        Carried::Guarded(_, guard, item) => Ok(EntryPart::Optional(field, guard, item)),
        Carried::Listed(_, of) => of_list(alloc, field, of),
    }
}

/// An optional entry.
fn optional(alloc: Global, key: Expr, value: Carried) -> Result<EntryPart, TranslationError>
    ensures { ReturnsEntryPart (specs.keyed_more (view key) (carried_view value)) result }
{
    let Some(field) = text_of(key) else {
        drop(value);
        return Err(TranslationError::OptionalEntry);
    };
    of_text(alloc, field, value)
}

/// An entry that is not optional.
#[tactic(auto, using(crate::proofs::EntrySteps::always_more))]
fn always(key: Expr, value: Carried) -> Result<EntryPart, TranslationError>
    ensures { ReturnsEntryPart (specs.entry_more access.Plain (taken (plain kind.Dyn (view key))) (taken (carried_view value))) result }
{
    let Some((_, tree)) = value_of(value) else {
        drop(key);
        return Err(TranslationError::OptionalValue);
    };
    Ok(EntryPart::Always(key, tree))
}

/// An entry of a key and a value.
pub(crate) fn part(
    alloc: Global,
    access: Access,
    key: Expr,
    value: Carried,
) -> Result<EntryPart, TranslationError>
    ensures { ReturnsEntryPart (specs.entry_more access (taken (plain kind.Dyn (view key))) (taken (carried_view value))) result }
{
    match access {
        Access::Plain => always(key, value),
        Access::Optional => optional(alloc, key, value),
    }
}

/// Whether more than this number of entries are optional.
fn has_more(limit: u8, parts: &[EntryPart]) -> bool
    ensures { result ≡ list.not (list.nat_le (specs.optional_count (parts_of parts.now)) limit) }
{
    match parts {
        [] => false,
        [EntryPart::Always(_, _), more @ ..] => has_more(limit, more),
        [EntryPart::Optional(_, _, _), more @ ..] => limit == 0 || has_more(limit - 1, more),
    }
}

/// Entries with one more.
#[tactic(auto, using(crate::proofs::EntrySteps::entry_pushed))]
fn with_entry(
    before: Vec<(Expr, Expr)>,
    key: Expr,
    value: Expr,
) -> Result<Vec<(Expr, Expr)>, AllocError>
    ensures { IfOk result (λ v. entries (list.map entry_view v.items) ≡ specs.entries_push (entries (list.map entry_view before.items)) (view key) (view value)) }
{
    let mut all = before;
    all.push((key, value))?;
    Ok(all)
}

/// Entries with one more that was built before.
fn with_built(
    before: Vec<(Expr, Expr)>,
    key: Built,
    value: Built,
) -> Result<Vec<(Expr, Expr)>, AllocError>
    ensures { IfOk result (λ v. IsOkAnd key (λ k. IsOkAnd value (λ x. entries (list.map entry_view v.items) ≡ specs.entries_push (entries (list.map entry_view before.items)) (view k) (view x)))) }
{
    let (key, value) = together::both(key, value)?;
    with_entry(before, key, value)
}

/// Entries with a copy of one more.
fn with_copy(
    alloc: Global,
    before: Vec<(Expr, Expr)>,
    key: &Expr,
    value: &Expr,
) -> Result<Vec<(Expr, Expr)>, AllocError>
    ensures { IfOk result (λ v. entries (list.map entry_view v.items) ≡ specs.entries_push (entries (list.map entry_view before.items)) (view key.now) (view value.now)) }
{
    with_built(before, copy(alloc, key), copy(alloc, value))
}

/// Entries with one more, whose key is a text.
fn with_text(
    alloc: Global,
    before: Vec<(Expr, Expr)>,
    field: &str,
    value: &Expr,
) -> Result<Vec<(Expr, Expr)>, AllocError>
    ensures { IfOk result (λ v. entries (list.map entry_view v.items) ≡ specs.entries_push (entries (list.map entry_view before.items)) (node.literal (node.text field.now)) (view value.now)) }
{
    with_built(before, build::text(alloc, field), copy(alloc, value))
}

/// A map literal with these entries before the others.
fn map_with(
    alloc: Global,
    before: Result<Vec<(Expr, Expr)>, AllocError>,
    parts: &[EntryPart],
) -> Built
    ensures { IfOk result (λ e. IsOkAnd before (λ v. view e ≡ specs.map_tree (entries (list.map entry_view v.items)) (parts_of parts.now))) }
{
    let before = before?;
    match parts {
        [] => Ok(build::map(before)),
        [EntryPart::Always(key, value), more @ ..] => {
            map_with(alloc, with_copy(alloc, before, key, value), more)
        }
        [EntryPart::Optional(field, guard, value), more @ ..] => {
            let others = entry_copies(alloc, before.as_slice());
            let all = with_text(alloc, before, field.as_str(), value);
            let yes = map_with(alloc, all, more);
            let no = map_with(alloc, others, more);
            built::ternary(alloc, copy(alloc, guard), yes, no)
        }
    }
}

/// A map literal.
pub(crate) fn map(alloc: Global, parts: &[EntryPart]) -> Result<Carried, TranslationError>
    ensures { ReturnsCarried (specs.map_translation (specs.pairs (parts_of parts.now))) result }
{
    if has_more(3, parts) {
        return Err(TranslationError::OptionalEntry);
    }
    let tree = map_with(alloc, Ok(Vec::new(alloc)), parts);
    Ok(Carried::Plain(ValueKind::Map, tree?))
}
