//! Macros from what their parts were translated to, or from the first error of these.

ghost use Rattle.std.specs.Prelude.{ℕ, List, string_bytes};
ghost use Rattle.cel_reader.specs.Tree as node;
ghost use Rattle.cel_reader.specs.Tree.{Tree};
ghost use Rattle.wide_kinds.specs.declared.kind.ValueKind.TheVariants as kind;
ghost use Rattle.wide_translation.specs.Carried.{Translation, OptionalValue, plain, taken};
ghost use Rattle.wide_translation.specs.Declarations.{ReturnsCarried, ReturnsRange, carried_view, scope_in, use_view};
ghost use Rattle.wide_translation.specs.Forms as forms;
ghost use Rattle.wide_translation.specs.Layers.{ranged};
ghost use Rattle.wide_translation.specs.Pairs as pairs;
ghost use Rattle.wide_translation.specs.Translated as specs;

use crate::calls::as_list;
use crate::carried::{Carried, list_of, value_of};
use crate::composed::Part;
use crate::names::Names;
use crate::pair_names::PairNames;
use crate::pair_ranges::PairRange;
use crate::translation_error::TranslationError;
use crate::{pair_macros, pair_ranges, ranges};
use cel_reader::Expr;
use std::alloc::Global;
use wide_reader::{Macro, OptionalMacro, PairMacro};

/// A macro over a range that is translated.
#[tactic(auto, using(crate::proofs::PartReturns::plain_part, crate::proofs::PartReturns::taken_part, crate::proofs::PartReturns::refused_part, crate::proofs::PartReturns::refused_plain))]
fn fold_of(alloc: Global, found: Macro, item: &str, range: Carried, part: Part) -> Part
    ensures { (u : Translation) → ReturnsCarried u part → ReturnsCarried (specs.on_plain (carried_view range) (λ k a. specs.with_plain u (λ j b. taken (specs.fold_carried found item.now a b)))) result }
{
    let Some((_, of)) = value_of(range) else {
        drop(part);
        return Err(TranslationError::OptionalValue);
    };
    match part {
        Ok(body) => ranges::fold(alloc, found, item, of, body),
        Err(failed) => {
            drop(of);
            Err(failed)
        }
    }
}

/// A macro over a range.
#[tactic(auto, using(crate::proofs::PartReturns::refused_part))]
pub(crate) fn fold(alloc: Global, found: Macro, item: &str, range: Part, part: Part) -> Part
    ensures { (t u : Translation) → ReturnsCarried t range → ReturnsCarried u part → ReturnsCarried (specs.with_plain t (λ k a. specs.with_plain u (λ j b. taken (specs.fold_carried found item.now a b)))) result }
{
    match range {
        Ok(of) => fold_of(alloc, found, item, of, part),
        Err(failed) => {
            drop(part);
            Err(failed)
        }
    }
}

/// `map` with a predicate that is translated, over a range that is built.
#[tactic(auto, using(crate::proofs::PartReturns::plain_part, crate::proofs::PartReturns::taken_part, crate::proofs::PartReturns::refused_part, crate::proofs::PartReturns::refused_plain))]
fn filtered(alloc: Global, item: &str, range: Expr, predicate: Carried, transform: Part) -> Part
    ensures { (v : Translation) → ReturnsCarried v transform → ReturnsCarried (specs.on_plain (carried_view predicate) (λ j b. specs.with_plain v (λ i c. taken (plain kind.List (forms.filter_map_tree item.now (node.view range) b c))))) result }
{
    let Some((_, test)) = value_of(predicate) else {
        drop(range);
        drop(transform);
        return Err(TranslationError::OptionalValue);
    };
    match transform {
        Ok(body) => ranges::filter_map(alloc, item, range, test, body),
        Err(failed) => {
            drop(range);
            drop(test);
            Err(failed)
        }
    }
}

/// `map` with a predicate, over a range that is translated.
#[tactic(auto, using(crate::proofs::PartReturns::refused_part, crate::proofs::PartReturns::refused_plain))]
fn filter_map_of(
    alloc: Global,
    item: &str,
    range: Carried,
    predicate: Part,
    transform: Part,
) -> Part
    ensures { (u v : Translation) → ReturnsCarried u predicate → ReturnsCarried v transform → ReturnsCarried (specs.on_plain (carried_view range) (λ k a. specs.with_plain u (λ j b. specs.with_plain v (λ i c. taken (plain kind.List (forms.filter_map_tree item.now a b c)))))) result }
{
    let Some((_, of)) = value_of(range) else {
        drop(predicate);
        drop(transform);
        return Err(TranslationError::OptionalValue);
    };
    match predicate {
        Ok(test) => filtered(alloc, item, of, test, transform),
        Err(failed) => {
            drop(of);
            drop(transform);
            Err(failed)
        }
    }
}

/// `map` with a predicate and a transform.
#[tactic(auto, using(crate::proofs::PartReturns::refused_part))]
pub(crate) fn filter_map(
    alloc: Global,
    item: &str,
    range: Part,
    predicate: Part,
    transform: Part,
) -> Part
    ensures { (t u v : Translation) → ReturnsCarried t range → ReturnsCarried u predicate → ReturnsCarried v transform → ReturnsCarried (specs.with_plain t (λ k a. specs.with_plain u (λ j b. specs.with_plain v (λ i c. taken (plain kind.List (forms.filter_map_tree item.now a b c)))))) result }
{
    match range {
        Ok(of) => filter_map_of(alloc, item, of, predicate, transform),
        Err(failed) => {
            drop(predicate);
            drop(transform);
            Err(failed)
        }
    }
}

/// A macro over an optional value as a list.
#[tactic(auto, using(crate::proofs::PartReturns::listed_part, crate::proofs::PartReturns::taken_part, crate::proofs::PartReturns::refused_part, crate::proofs::PartReturns::refused_listed))]
fn folded_list(alloc: Global, found: OptionalMacro, item: &str, list: Carried, part: Part) -> Part
    ensures { (u : Translation) → ReturnsCarried u part → ReturnsCarried (specs.from_list OptionalValue (carried_view list) (λ k l. specs.with_carried u (specs.optional_carried found item.now l))) result }
{
    let Some((_, tree)) = list_of(list) else {
        drop(part);
        return Err(TranslationError::OptionalValue);
    };
    match part {
        Ok(body) => ranges::optional_fold(alloc, found, item, tree, body),
        Err(failed) => {
            drop(tree);
            Err(failed)
        }
    }
}

/// A macro over an optional value that is translated.
fn optional_fold_of(
    alloc: Global,
    found: OptionalMacro,
    item: &str,
    of: Carried,
    part: Part,
) -> Part
    ensures { (u : Translation) → ReturnsCarried u part → ReturnsCarried (specs.on_list OptionalValue (carried_view of) (λ k l. specs.with_carried u (specs.optional_carried found item.now l))) result }
{
    match as_list(alloc, of) {
        Ok(list) => folded_list(alloc, found, item, list, part),
        Err(failed) => {
            drop(part);
            Err(failed.into())
        }
    }
}

/// A macro over an optional value.
#[tactic(auto, using(crate::proofs::PartReturns::refused_part))]
pub(crate) fn optional_fold(
    alloc: Global,
    found: OptionalMacro,
    item: &str,
    of: Part,
    part: Part,
) -> Part
    ensures { (t u : Translation) → ReturnsCarried t of → ReturnsCarried u part → ReturnsCarried (specs.with_carried t (λ c. specs.on_list OptionalValue c (λ k l. specs.with_carried u (specs.optional_carried found item.now l)))) result }
{
    match of {
        Ok(operand) => optional_fold_of(alloc, found, item, operand, part),
        Err(failed) => {
            drop(part);
            Err(failed)
        }
    }
}

/// The iteration name and the range of a macro with two names.
#[tactic(auto, using(crate::proofs::PartReturns::range_taken, crate::proofs::PartReturns::refused_part))]
pub(crate) fn pair_range(
    alloc: Global,
    given: &PairNames,
    of: Part,
    names: &Names,
) -> Result<PairRange, TranslationError>
    ensures { let s = scope_in names.now in let u = use_view given.now.used in (t : Translation) → ReturnsCarried t of → ReturnsRange (λ f. specs.with_carried t (λ c. ranged s.wrapped u c f)) (pairs.pair_binder u given.now.key.now given.now.value.now s) result }
{
    match of {
        Ok(operand) => pair_ranges::over(alloc, given, operand, names),
        Err(failed) => Err(failed),
    }
}

/// A macro with two names, over its range.
#[tactic(auto, using(crate::proofs::PartReturns::taken_part, crate::proofs::PartReturns::refused_part))]
fn pair_fold_of(alloc: Global, found: PairMacro, over: PairRange, part: Part) -> Part
    ensures { (u : Translation) → ReturnsCarried u part → ReturnsCarried (specs.with_plain u (λ j c. taken (plain (pairs.pair_kind found) (forms.macro_tree (pairs.one_name found) (string_bytes over.binder) (node.view over.range) c)))) result }
{
    match part {
        Ok(body) => pair_macros::fold(alloc, found, over, body),
        Err(failed) => {
            drop(over);
            Err(failed)
        }
    }
}

/// A macro with two names.
#[tactic(auto, using(crate::proofs::PartReturns::no_range))]
pub(crate) fn pair_fold(
    alloc: Global,
    found: PairMacro,
    over: Result<PairRange, TranslationError>,
    part: Part,
) -> Part
    ensures { (g : (Tree → Translation) → Translation) (y : List ℕ) (u : Translation) → ReturnsRange g y over → ReturnsCarried u part → ReturnsCarried (g (λ r. specs.with_plain u (λ j c. taken (plain (pairs.pair_kind found) (forms.macro_tree (pairs.one_name found) y r c))))) result }
{
    match over {
        Ok(range) => pair_fold_of(alloc, found, range, part),
        Err(failed) => {
            drop(part);
            Err(failed)
        }
    }
}

/// `transformList` with a predicate that is translated, over its range.
#[tactic(auto, using(crate::proofs::PartReturns::plain_part, crate::proofs::PartReturns::taken_part, crate::proofs::PartReturns::refused_part, crate::proofs::PartReturns::refused_plain))]
fn pair_filtered(alloc: Global, over: PairRange, predicate: Carried, transform: Part) -> Part
    ensures { (v : Translation) → ReturnsCarried v transform → ReturnsCarried (specs.on_plain (carried_view predicate) (λ j c. specs.with_plain v (λ i d. taken (plain kind.List (forms.filter_map_tree (string_bytes over.binder) (node.view over.range) c d))))) result }
{
    let Some((_, test)) = value_of(predicate) else {
        drop(over);
        drop(transform);
        return Err(TranslationError::OptionalValue);
    };
    match transform {
        Ok(body) => pair_macros::filter_map(alloc, over, test, body),
        Err(failed) => {
            drop(over);
            drop(test);
            Err(failed)
        }
    }
}

/// `transformList` with a predicate, over its range.
#[tactic(auto, using(crate::proofs::PartReturns::refused_part))]
fn pair_filter_map_of(alloc: Global, over: PairRange, predicate: Part, transform: Part) -> Part
    ensures { (u v : Translation) → ReturnsCarried u predicate → ReturnsCarried v transform → ReturnsCarried (specs.with_plain u (λ j c. specs.with_plain v (λ i d. taken (plain kind.List (forms.filter_map_tree (string_bytes over.binder) (node.view over.range) c d))))) result }
{
    match predicate {
        Ok(test) => pair_filtered(alloc, over, test, transform),
        Err(failed) => {
            drop(over);
            drop(transform);
            Err(failed)
        }
    }
}

/// `transformList` with a predicate.
#[tactic(auto, using(crate::proofs::PartReturns::no_range))]
pub(crate) fn pair_filter_map(
    alloc: Global,
    over: Result<PairRange, TranslationError>,
    predicate: Part,
    transform: Part,
) -> Part
    ensures { (g : (Tree → Translation) → Translation) (y : List ℕ) (u v : Translation) → ReturnsRange g y over → ReturnsCarried u predicate → ReturnsCarried v transform → ReturnsCarried (g (λ r. specs.with_plain u (λ j c. specs.with_plain v (λ i d. taken (plain kind.List (forms.filter_map_tree y r c d)))))) result }
{
    match over {
        Ok(range) => pair_filter_map_of(alloc, range, predicate, transform),
        Err(failed) => {
            drop(predicate);
            drop(transform);
            Err(failed)
        }
    }
}
