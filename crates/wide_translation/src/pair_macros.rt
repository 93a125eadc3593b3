//! Macros with two names.

ghost use Rattle.std.specs.Prelude.{◌≡◌, string_bytes};
ghost use Rattle.cel_reader.specs.Tree.{view};
ghost use Rattle.wide_kinds.specs.declared.kind.ValueKind.TheVariants as kind;
ghost use Rattle.wide_translation.specs.Carried.{plain, taken};
ghost use Rattle.wide_translation.specs.Declarations.{ReturnsCarried, carried_view};
ghost use Rattle.wide_translation.specs.Forms as forms;
ghost use Rattle.wide_translation.specs.Pairs as specs;
ghost use Rattle.wide_translation.specs.Parts as parts;

use crate::carried::{Carried, value_of};
use crate::pair_ranges::PairRange;
use crate::translation_error::TranslationError;
use crate::{build, ranges};
use cel_macros::Macro;
use cel_reader::Expr;
use std::alloc::Global;
use wide_kinds::ValueKind;
use wide_reader::PairMacro;

/// The macro with one name.
fn one_name(found: PairMacro) -> Macro
    ensures { result ≡ specs.one_name found }
{
    match found {
        PairMacro::All => Macro::All,
        PairMacro::Exists => Macro::Exists,
        PairMacro::ExistsOne => Macro::ExistsOne,
        PairMacro::TransformList => Macro::Map,
    }
}

/// The kind of a macro's result.
fn pair_kind(found: PairMacro) -> ValueKind
    ensures { result ≡ specs.pair_kind found }
{
    match found {
        PairMacro::All | PairMacro::Exists | PairMacro::ExistsOne => ValueKind::Bool,
        PairMacro::TransformList => ValueKind::List,
    }
}

/// A macro over its range.
pub(crate) fn fold(
    alloc: Global,
    found: PairMacro,
    over: PairRange,
    part: Carried,
) -> Result<Carried, TranslationError>
    ensures { ReturnsCarried (parts.on_plain (carried_view part) (λ j c. taken (plain (specs.pair_kind found) (forms.macro_tree (specs.one_name found) (string_bytes over.binder) (view over.range) c)))) result }
{
    let Some((_, body)) = value_of(part) else {
        drop(over);
        return Err(TranslationError::OptionalValue);
    };
    let PairRange { binder, range } = over;
    let tree = build::fold(alloc, one_name(found), binder.as_str(), range, body)?;
    Ok(Carried::Plain(pair_kind(found), tree))
}

/// `transformList` with a predicate, over its range.
pub(crate) fn filter_map(
    alloc: Global,
    over: PairRange,
    predicate: Expr,
    transform: Carried,
) -> Result<Carried, TranslationError>
    ensures { ReturnsCarried (parts.on_plain (carried_view transform) (λ i c. taken (plain kind.List (forms.filter_map_tree (string_bytes over.binder) (view over.range) (view predicate) c)))) result }
{
    let PairRange { binder, range } = over;
    ranges::filter_map(alloc, binder.as_str(), range, predicate, transform)
}
