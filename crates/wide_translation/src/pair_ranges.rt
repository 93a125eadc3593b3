//! Ranges of macros with two names.

ghost use Rattle.std.specs.Prelude.{◌≡◌, IfOk};
ghost use Rattle.cel_reader.specs.Tree.{view};
ghost use Rattle.cel_macros.specs.declared.macros.Macro.TheVariants as plain_macro;
ghost use Rattle.wide_translation.specs.Built.{FormOfTwo};
ghost use Rattle.wide_translation.specs.Declarations.{IsPairRange, ReturnsRange, ReturnsTree, carried_view, scope_in, use_view};
ghost use Rattle.wide_translation.specs.Forms as forms;
ghost use Rattle.wide_translation.specs.Layers.{ranged, repeated_range_tree};
ghost use Rattle.wide_translation.specs.Names.{index_name};
ghost use Rattle.wide_translation.specs.Pairs as specs;
ghost use Rattle.wide_translation.specs.Parts.{once};

use crate::built::Built;
use crate::carried::{Carried, value_of};
use crate::copying::copy;
use crate::names::{INDEX, Names, PARAMS, is_wrapped};
use crate::pair_names::PairNames;
use crate::pair_use::PairUse;
use crate::translation_error::TranslationError;
use crate::{build, built};
use cel_macros::Macro;
use cel_reader::{BinaryOperator, Expr};
use std::alloc::{AllocError, Global};
use wide_kinds::ValueKind;

/// An index or a key.
pub(crate) fn here(alloc: Global) -> Result<Expr, AllocError>
    ensures { IfOk result (λ e. view e ≡ specs.here) }
{
    build::name(alloc, INDEX)
}

/// What each index or key of a range is mapped to.
fn mapped(alloc: Global, range: Built, part: Built) -> Built
    ensures { FormOfTwo (forms.macro_tree plain_macro.Map index_name) range part result }
{
    built::fold(alloc, Macro::Map, INDEX, range, part)
}

/// The item at an index or the value at a key.
fn at_here(alloc: Global, of: &Expr) -> Result<Expr, AllocError>
    ensures { IfOk result (λ e. view e ≡ specs.at_tree (view of.now)) }
{
    built::index(alloc, copy(alloc, of), here(alloc))
}

/// The values of a map.
fn values(alloc: Global, of: &Expr) -> Result<Expr, AllocError>
    ensures { IfOk result (λ e. view e ≡ specs.values_tree (view of.now)) }
{
    mapped(alloc, copy(alloc, of), at_here(alloc, of))
}

/// An index or a key, and what an expression has there.
fn pair(alloc: Global, of: &Expr) -> Result<Expr, AllocError>
    ensures { IfOk result (λ e. view e ≡ specs.pair_tree (view of.now)) }
{
    built::list(built::pair(alloc, here(alloc), at_here(alloc, of)))
}

/// The keys of a map, each with its value.
fn pairs(alloc: Global, of: &Expr) -> Result<Expr, AllocError>
    ensures { IfOk result (λ e. view e ≡ specs.pairs_tree (view of.now)) }
{
    mapped(alloc, copy(alloc, of), pair(alloc, of))
}

/// Whether a list or a map is a list.
pub(crate) fn is_list(alloc: Global, of: &Expr) -> Result<Expr, AllocError>
    ensures { IfOk result (λ e. view e ≡ specs.is_list_tree (view of.now)) }
{
    let range_items = mapped(alloc, copy(alloc, of), here(alloc));
    built::binary(alloc, BinaryOperator::Equal, range_items, copy(alloc, of))
}

/// The items of a list, or the values of a map.
fn items(alloc: Global, of: &Expr) -> Result<Expr, AllocError>
    ensures { IfOk result (λ e. view e ≡ specs.items_tree (view of.now)) }
{
    built::ternary(
        alloc,
        is_list(alloc, of),
        copy(alloc, of),
        values(alloc, of),
    )
}

/// The table of the ints from 0.
pub(crate) fn table(alloc: Global) -> Result<Expr, AllocError>
    ensures { IfOk result (λ e. view e ≡ specs.table_tree) }
{
    let tables = built::select(alloc, build::name(alloc, PARAMS), "t");
    built::select(alloc, tables, "n")
}

/// The indices of a list.
pub(crate) fn indices(alloc: Global, of: &Expr) -> Result<Expr, AllocError>
    ensures { IfOk result (λ e. view e ≡ specs.indices_tree (view of.now)) }
{
    let size = built::call(alloc, "size", copy(alloc, of));
    let is_index = built::binary(alloc, BinaryOperator::Less, here(alloc), size);
    built::fold(alloc, Macro::Filter, INDEX, table(alloc), is_index)
}

/// The indices of a list, or the keys of a map.
fn keys(alloc: Global, of: &Expr) -> Result<Expr, AllocError>
    ensures { IfOk result (λ e. view e ≡ specs.keys_tree (view of.now)) }
{
    built::ternary(
        alloc,
        is_list(alloc, of),
        indices(alloc, of),
        copy(alloc, of),
    )
}

/// The indices of a list or the keys of a map, each with its item or value.
fn any_pairs(alloc: Global, of: &Expr) -> Result<Expr, AllocError>
    ensures { IfOk result (λ e. view e ≡ specs.any_pairs_tree (view of.now)) }
{
    let list_pairs = mapped(alloc, indices(alloc, of), pair(alloc, of));
    built::ternary(alloc, is_list(alloc, of), list_pairs, pairs(alloc, of))
}

/// The range of a macro for a map.
fn map_range(alloc: Global, used: PairUse, of: &Expr) -> Result<Expr, AllocError>
    ensures { IfOk result (λ e. view e ≡ specs.map_range_tree (use_view used) (view of.now)) }
{
    match used {
        PairUse::ValuesOnly => values(alloc, of),
        PairUse::KeysOnly => copy(alloc, of),
        PairUse::Both => pairs(alloc, of),
    }
}

/// The range of a macro for a list or a map.
fn any_range(alloc: Global, used: PairUse, of: &Expr) -> Result<Expr, AllocError>
    ensures { IfOk result (λ e. view e ≡ specs.any_range_tree (use_view used) (view of.now)) }
{
    match used {
        PairUse::ValuesOnly => items(alloc, of),
        PairUse::KeysOnly => keys(alloc, of),
        PairUse::Both => any_pairs(alloc, of),
    }
}

/// The range of a macro for a map, or for a list or a map.
fn repeated_range(alloc: Global, used: PairUse, is_map: bool, of: &Expr) -> Built
    ensures { IfOk result (λ e. view e ≡ repeated_range_tree (use_view used) is_map (view of.now)) }
{
    if is_map {
        return map_range(alloc, used, of);
    }
    any_range(alloc, used, of)
}

/// The same for the value that the translation's name denotes.
fn held_range(alloc: Global, used: PairUse, is_map: bool) -> Built
    ensures { IfOk result (λ e. view e ≡ repeated_range_tree (use_view used) is_map forms.held) }
{
    let held = build::held(alloc)?;
    let range = repeated_range(alloc, used, is_map, &held);
    drop(held);
    range
}

/// The range of a macro for a map, or for a list or a map. A map gives its keys by itself.
fn written_range(alloc: Global, used: PairUse, is_map: bool, of: Expr) -> Result<Expr, AllocError>
    ensures { IfOk result (λ e. view e ≡ specs.range_tree (use_view used) is_map (view of)) }
{
    if is_map && matches!(used, PairUse::KeysOnly) {
        return Ok(of);
    }
    if build::is_simple(&of) {
        let range = repeated_range(alloc, used, is_map, &of);
        drop(of);
        return range;
    }
    built::bound(alloc, Ok(of), held_range(alloc, used, is_map))
}

/// Whether values of this kind are maps.
fn is_map(kind: ValueKind) -> bool
    ensures { result ≡ specs.is_map_kind kind }
{
    matches!(kind, ValueKind::Map)
}

/// The range of a macro for an operand of this kind. Only a table gives indices.
#[tactic(auto, using(crate::proofs::PairSteps::with_range_of, crate::proofs::PairSteps::values_alone, crate::proofs::PairSteps::no_range))]
fn range_of_kind(
    alloc: Global,
    has_tables: bool,
    used: PairUse,
    kind: ValueKind,
    of: Expr,
) -> Result<Expr, TranslationError>
    ensures { IsPairRange (specs.pair_range has_tables (use_view used) (specs.is_map_kind kind) (view of)) result }
{
    let of_map = is_map(kind);
    if of_map || has_tables {
        return Ok(written_range(alloc, used, of_map, of)?);
    }
    match used {
        PairUse::ValuesOnly => Ok(written_range(alloc, used, false, of)?),
        _ => Err(TranslationError::NeedsIndices),
    }
}

/// The range of a macro for an operand.
#[tactic(auto, using(crate::proofs::PairSteps::ranged_some, crate::proofs::PairSteps::ranged_none))]
fn range(
    alloc: Global,
    has_tables: bool,
    used: PairUse,
    of: Carried,
) -> Result<Expr, TranslationError>
    ensures { ReturnsTree (ranged has_tables (use_view used) (carried_view of)) result }
{
    let Some((kind, operand)) = value_of(of) else {
        return Err(TranslationError::OptionalValue);
    };
    range_of_kind(alloc, has_tables, used, kind, operand)
}

/// The iteration name and the range of the macro that the translation writes.
#[derive(Debug, Drop)]
pub(crate) struct PairRange {
    pub(crate) binder: String,
    pub(crate) range: Expr,
}

/// The iteration name and the range for an operand, inside of these names.
pub(crate) fn over(
    alloc: Global,
    given: &PairNames,
    of: Carried,
    names: &Names,
) -> Result<PairRange, TranslationError>
    ensures { let s = scope_in names.now in ReturnsRange (ranged s.wrapped (use_view given.now.used) (carried_view of)) (specs.pair_binder (use_view given.now.used) given.now.key.now given.now.value.now s) result }
{
    let range = range(alloc, is_wrapped(names), given.used, of)?;
    let binder = given.binder(alloc, names)?;
    Ok(PairRange { binder, range })
}
