//! The translation of wide expressions.

ghost use Rattle.std.specs.Prelude as list;
ghost use Rattle.wide_reader.specs.Tree as wide;
ghost use Rattle.wide_kinds.specs.declared.kind.ValueKind.TheVariants as kind;
ghost use Rattle.wide_meaning.specs.Environment as environment;
ghost use Rattle.wide_meaning.specs.Functions.{function_named};
ghost use Rattle.wide_translation.specs.Declarations.{ReturnsCarried, carried_view, scope_in, use_view};
ghost use Rattle.wide_translation.specs.Scope.{is_hidden, within};
ghost use Rattle.wide_translation.specs.Translated as specs;
ghost use Rattle.wide_translation.specs.Translated.{translated, all_translated, items_translated, entries_translated};

use crate::calls::{taken_name, unknown, unknown_method};
use crate::carried::Carried;
use crate::lists::ListParts;
use crate::names::{Names, hides_variables, is_taken, is_wrapped, written_name};
use crate::naming::{compared_uint, denotes_variables, is_empty, name, qualified, root, variable};
use crate::pair_names::{PairNames, PairScope, both_free};
use crate::place::Place;
use crate::translation_error::TranslationError;
use crate::{
    calls, composed, composed_calls, composed_macros, entries, fields, list_calls, list_functions,
    naming, operators,
};
use std::alloc::{AllocError, Global};
use wide_kinds::ValueKind;
use wide_meaning::{Function, Method, Qualified};
use wide_reader::{Access, Wide};

/// A list literal.
#[cycle(translation)]
fn items(
    alloc: Global,
    given: &[(Access, Wide)],
    names: &Names,
) -> Result<Carried, TranslationError>
    ensures { ReturnsCarried (specs.list_translation (items_translated (scope_in names.now) (wide.items (list.map wide.item_view given.now)))) result }
{
    let mut parts = ListParts::new(alloc);
    for (access, item) in given {
        parts.add_part(alloc, *access, translation(alloc, item, names))?;
    }
    parts.list(alloc)
}

/// A map literal.
#[cycle(translation)]
fn pairs(
    alloc: Global,
    given: &[(Access, Wide, Wide)],
    names: &Names,
) -> Result<Carried, TranslationError>
    ensures { ReturnsCarried (specs.map_translation (entries_translated (scope_in names.now) (wide.entries (list.map wide.entry_view given.now)))) result }
{
    let mut out = Vec::new(alloc);
    for (access, key, value) in given {
        let first = translation(alloc, key, names);
        let second = translation(alloc, value, names);
        let part = composed::entry(alloc, *access, first, second)?;
        if let Err(failed) = out.push(part) {
            return Err(AllocError::from(failed).into());
        }
    }
    entries::map(alloc, out.as_slice())
}

/// An operand of an operator. One that is compared may be an unsigned int.
#[cycle(translation)]
#[tactic(auto, using(crate::proofs::Arms::compared_some, crate::proofs::Arms::compared_none))]
fn operand(
    alloc: Global,
    is_compared: bool,
    e: &Wide,
    names: &Names,
) -> Result<Carried, TranslationError>
    ensures { ReturnsCarried (specs.operand is_compared (wide.view e.now) (translated (scope_in names.now) (wide.view e.now))) result }
{
    match compared_uint(is_compared, e) {
        Some(n) => operators::unsigned(n),
        None => translation(alloc, e, names),
    }
}

/// A call of a function.
#[cycle(translation)]
#[tactic(auto, using(crate::proofs::Arms::call_of_none, crate::proofs::Arms::call_of_many))]
fn call(
    alloc: Global,
    name: &str,
    arguments: &[Wide],
    names: &Names,
) -> Result<Carried, TranslationError>
    ensures { ReturnsCarried (specs.call_translation (function_named name.now) name.now (all_translated (scope_in names.now) (wide.wides (list.map wide.view arguments.now)))) result }
{
    let Some(found) = Function::of_name(name) else {
        return Err(unknown(alloc, name));
    };
    match arguments {
        [] => Err(unknown(alloc, name)),
        [argument] => composed_calls::call(alloc, found, translation(alloc, argument, names)),
        _ => Err(unknown(alloc, name)),
    }
}

/// A function with a namespace.
#[cycle(translation)]
#[tactic(auto, using(crate::proofs::Arms::qualified_of_many))]
fn qualified_call(
    alloc: Global,
    found: Qualified,
    name: &str,
    arguments: &[Wide],
    names: &Names,
) -> Result<Carried, TranslationError>
    ensures { ReturnsCarried (specs.qualified_translation found name.now (all_translated (scope_in names.now) (wide.wides (list.map wide.view arguments.now)))) result }
{
    match arguments {
        [] => calls::qualified(alloc, found, name),
        [argument] => composed_calls::qualified(
            alloc,
            found,
            name,
            translation(alloc, argument, names),
        ),
        [first, second] => {
            if list_functions::is_of_sets(found) {
                let list = translation(alloc, first, names);
                return composed_calls::sets(alloc, found, list, translation(alloc, second, names));
            }
            Err(unknown(alloc, name))
        }
        _ => Err(unknown(alloc, name)),
    }
}

/// A method of an operand.
#[cycle(translation)]
#[tactic(auto, using(crate::proofs::MethodArms::method_of_many))]
fn method(
    alloc: Global,
    found: Method,
    of: Carried,
    arguments: &[Wide],
    names: &Names,
) -> Result<Carried, TranslationError>
    ensures { let s = scope_in names.now in ReturnsCarried (specs.method_of s.wrapped found (carried_view of) (all_translated s (wide.wides (list.map wide.view arguments.now)))) result }
{
    let has_tables = is_wrapped(names);
    match arguments {
        [] => list_calls::method(alloc, has_tables, found, of),
        [argument] => {
            let part = translation(alloc, argument, names);
            list_calls::method_with(alloc, has_tables, found, of, part)
        }
        [first, second] => {
            if list_calls::is_slice(found) {
                let from = translation(alloc, first, names);
                let to = translation(alloc, second, names);
                return list_calls::slice(alloc, has_tables, of, from, to);
            }
            drop(of);
            Err(unknown_method(alloc, found))
        }
        _ => {
            drop(of);
            Err(unknown_method(alloc, found))
        }
    }
}

/// A variable, or a field of an operand.
#[cycle(translation)]
fn selected(
    alloc: Global,
    of: &Wide,
    access: Access,
    field: &str,
    names: &Names,
) -> Result<Carried, TranslationError>
    ensures { let s = scope_in names.now in ReturnsCarried (specs.selected_translation (environment.denotes_variables (wide.view of.now) (is_hidden s)) access field.now s (translated s (wide.view of.now))) result }
{
    if denotes_variables(of, hides_variables(names)) && matches!(access, Access::Plain) {
        return variable(alloc, field, names);
    }
    let inner = translation(alloc, of, names)?;
    Ok(fields::field(alloc, access, field, inner)?)
}

/// The predicate or transform of a macro with one name.
#[cycle(translation)]
fn in_macro(
    alloc: Global,
    item: &str,
    part: &Wide,
    names: &Names,
) -> Result<Carried, TranslationError>
    ensures { ReturnsCarried (translated (within item.now kind.Dyn (scope_in names.now)) (wide.view part.now)) result }
{
    let inner = Names::Within(item, Place::Itself(ValueKind::Dyn), &*names);
    translation(alloc, part, &inner)
}

/// The predicate or transform of a macro with two names.
#[cycle(translation)]
fn in_pair(
    alloc: Global,
    given: &PairNames,
    part: &Wide,
    names: &Names,
) -> Result<Carried, TranslationError>
    ensures { ReturnsCarried (translated (specs.within_pair (use_view given.now.used) given.now.key.now given.now.value.now (scope_in names.now)) (wide.view part.now)) result }
{
    let PairScope {
        key,
        value,
        first,
        second,
    } = given.scope(alloc, names)?;
    let outer = Names::Within(key.as_str(), first, &*names);
    let inner = Names::Within(value.as_str(), second, &outer);
    translation(alloc, part, &inner)
}

/// The translation of an expression.
#[cycle(translation)]
#[tactic(auto, using(crate::proofs::WideViews::view_call, crate::proofs::WideViews::view_method, crate::proofs::WideViews::view_list, crate::proofs::WideViews::view_map), unfolding(crate::specs::Translated::translated))]
pub(crate) fn translation(
    alloc: Global,
    e: &Wide,
    names: &Names,
) -> Result<Carried, TranslationError>
    ensures { ReturnsCarried (translated (scope_in names.now) (wide.view e.now)) result }
{
    match e {
        Wide::Literal(given) => naming::literal(alloc, given),
        Wide::Uint(_) => Err(TranslationError::UnsignedInt),
        Wide::Name(given) => name(alloc, given.as_str(), names),
        Wide::Root(given) => root(alloc, given.as_str(), names),
        Wide::Select(of, access, field) => selected(alloc, of, *access, field.as_str(), names),
        Wide::Index(of, access, at) => {
            let inner = translation(alloc, of, names);
            composed::index(alloc, at, *access, inner, translation(alloc, at, names))
        }
        Wide::Has(of, field) => {
            composed::tested(alloc, field.as_str(), translation(alloc, of, names))
        }
        Wide::Unary(operator, of) => {
            composed::unary(alloc, *operator, translation(alloc, of, names))
        }
        Wide::Binary(operator, left, right) => {
            let is_compared = operators::compares(*operator);
            let first = operand(alloc, is_compared, left, names);
            let second = operand(alloc, is_compared, right, names);
            composed::binary(alloc, is_empty(right), *operator, first, second)
        }
        Wide::Ternary(condition, yes, no) => {
            let test = translation(alloc, condition, names);
            let first = translation(alloc, yes, names);
            composed::ternary(alloc, test, first, translation(alloc, no, names))
        }
        Wide::List(given) => items(alloc, given.as_slice(), names),
        Wide::Map(given) => pairs(alloc, given.as_slice(), names),
        Wide::Fold(found, range, item, part) => {
            if is_taken(item.as_str()) {
                return Err(taken_name(alloc, item.as_str()));
            }
            let binder = written_name(alloc, item.as_str())?;
            let of = translation(alloc, range, names);
            let body = in_macro(alloc, item.as_str(), part, names);
            composed_macros::fold(alloc, *found, binder.as_str(), of, body)
        }
        Wide::FilterMap(range, item, predicate, transform) => {
            if is_taken(item.as_str()) {
                return Err(taken_name(alloc, item.as_str()));
            }
            let binder = written_name(alloc, item.as_str())?;
            let of = translation(alloc, range, names);
            let test = in_macro(alloc, item.as_str(), predicate, names);
            let body = in_macro(alloc, item.as_str(), transform, names);
            composed_macros::filter_map(alloc, binder.as_str(), of, test, body)
        }
        Wide::PairFold(found, range, key, value, part) => {
            both_free(alloc, key.as_str(), value.as_str())?;
            let given = PairNames::in_one(key.as_str(), value.as_str(), part);
            let operand = translation(alloc, range, names);
            let over = composed_macros::pair_range(alloc, &given, operand, names);
            let body = in_pair(alloc, &given, part, names);
            composed_macros::pair_fold(alloc, *found, over, body)
        }
        Wide::PairFilterMap(range, key, value, predicate, transform) => {
            both_free(alloc, key.as_str(), value.as_str())?;
            let given = PairNames::in_two(key.as_str(), value.as_str(), predicate, transform);
            let operand = translation(alloc, range, names);
            let over = composed_macros::pair_range(alloc, &given, operand, names);
            let test = in_pair(alloc, &given, predicate, names);
            let body = in_pair(alloc, &given, transform, names);
            composed_macros::pair_filter_map(alloc, over, test, body)
        }
        Wide::OptionalFold(found, of, item, part) => {
            if is_taken(item.as_str()) {
                return Err(taken_name(alloc, item.as_str()));
            }
            let binder = written_name(alloc, item.as_str())?;
            let operand = translation(alloc, of, names);
            let body = in_macro(alloc, item.as_str(), part, names);
            composed_macros::optional_fold(alloc, *found, binder.as_str(), operand, body)
        }
        Wide::Call(given, arguments) => { call(alloc, given.as_str(), arguments.as_slice(), names) }
        Wide::Method(of, given, arguments) => {
            if let Some(found) = qualified(of, given.as_str()) {
                return qualified_call(alloc, found, given.as_str(), arguments.as_slice(), names);
            }
            let Some(found) = Method::of_name(given.as_str()) else {
                return Err(unknown(alloc, given.as_str()));
            };
            let operand = translation(alloc, of, names)?;
            method(alloc, found, operand, arguments.as_slice(), names)
        }
    }
}
