//! Macros over ranges and optional values.

ghost use Rattle.std.specs.Prelude.{◌≡◌};
ghost use Rattle.cel_reader.specs.Tree.{view};
ghost use Rattle.wide_meaning.specs.Ranges as ranges;
ghost use Rattle.wide_kinds.specs.declared.kind.ValueKind.TheVariants as kind;
ghost use Rattle.wide_reader.specs.declared.wide.OptionalMacro.TheVariants as optional;
ghost use Rattle.wide_translation.specs.Carried.{plain, taken};
ghost use Rattle.wide_translation.specs.Declarations.{ReturnsCarried, carried_view};
ghost use Rattle.wide_translation.specs.Forms as forms;
ghost use Rattle.wide_translation.specs.Translated as specs;

use crate::build;
use crate::calls::as_list;
use crate::carried::{Carried, list_of, value_of};
use crate::translation_error::TranslationError;
use cel_macros::Macro as PlainMacro;
use cel_reader::Expr;
use std::alloc::Global;
use wide_kinds::ValueKind;
use wide_reader::{Macro, OptionalMacro};

/// The macro of the compiled expressions.
fn plain_macro(found: Macro) -> PlainMacro
    ensures { result ≡ ranges.plain_macro_of found }
{
    match found {
        Macro::All => PlainMacro::All,
        Macro::Exists => PlainMacro::Exists,
        Macro::ExistsOne => PlainMacro::ExistsOne,
        Macro::Filter => PlainMacro::Filter,
        Macro::Map => PlainMacro::Map,
    }
}

/// The kind of a macro's result.
fn macro_kind(found: Macro) -> ValueKind
    ensures { result ≡ specs.macro_kind found }
{
    match found {
        Macro::All | Macro::Exists | Macro::ExistsOne => ValueKind::Bool,
        Macro::Filter | Macro::Map => ValueKind::List,
    }
}

/// A macro over a range.
pub(crate) fn fold(
    alloc: Global,
    found: Macro,
    item: &str,
    range: Expr,
    part: Carried,
) -> Result<Carried, TranslationError>
    ensures { ReturnsCarried (specs.on_plain (carried_view part) (λ j b. taken (specs.fold_carried found item.now (view range) b))) result }
{
    let Some((_, body)) = value_of(part) else {
        drop(range);
        return Err(TranslationError::OptionalValue);
    };
    let tree = build::fold(alloc, plain_macro(found), item, range, body)?;
    Ok(Carried::Plain(macro_kind(found), tree))
}

/// `map` with a predicate and a transform.
pub(crate) fn filter_map(
    alloc: Global,
    item: &str,
    range: Expr,
    predicate: Expr,
    transform: Carried,
) -> Result<Carried, TranslationError>
    ensures { ReturnsCarried (specs.on_plain (carried_view transform) (λ i c. taken (plain kind.List (forms.filter_map_tree item.now (view range) (view predicate) c)))) result }
{
    let Some((_, body)) = value_of(transform) else {
        drop(range);
        drop(predicate);
        return Err(TranslationError::OptionalValue);
    };
    let tree = build::filter_map(alloc, item, range, predicate, body)?;
    Ok(Carried::Plain(ValueKind::List, tree))
}

/// `optMap` over an optional value as a list.
fn optional_map(
    alloc: Global,
    item: &str,
    list: Expr,
    part: Carried,
) -> Result<Carried, TranslationError>
    ensures { ReturnsCarried (specs.optional_carried optional.Map item.now (view list) (carried_view part)) result }
{
    let Some((kind, body)) = value_of(part) else {
        drop(list);
        return Err(TranslationError::OptionalValue);
    };
    let mapped = build::fold(alloc, PlainMacro::Map, item, list, body)?;
    Ok(Carried::Listed(kind, mapped))
}

/// `optFlatMap` over an optional value as a list.
fn optional_flat_map(
    alloc: Global,
    item: &str,
    list: Expr,
    part: Carried,
) -> Result<Carried, TranslationError>
    ensures { ReturnsCarried (specs.optional_carried optional.FlatMap item.now (view list) (carried_view part)) result }
{
    let inner = match as_list(alloc, part) {
        Ok(inner) => inner,
        Err(failed) => {
            drop(list);
            return Err(failed.into());
        }
    };
    let Some((kind, body)) = list_of(inner) else {
        drop(list);
        return Err(TranslationError::OptionalValue);
    };
    let mapped = build::flat(alloc, item, list, body)?;
    Ok(Carried::Listed(kind, mapped))
}

/// A macro over an optional value as a list.
pub(crate) fn optional_fold(
    alloc: Global,
    found: OptionalMacro,
    item: &str,
    list: Expr,
    part: Carried,
) -> Result<Carried, TranslationError>
    ensures { ReturnsCarried (specs.optional_carried found item.now (view list) (carried_view part)) result }
{
    match found {
        OptionalMacro::Map => optional_map(alloc, item, list, part),
        OptionalMacro::FlatMap => optional_flat_map(alloc, item, list, part),
    }
}
