//! Whether the value of an expression, and all in it, is no wider than the documents.

ghost use Rattle.std.specs.Prelude.{◌≡◌};
ghost use Rattle.std.specs.Prelude as list;
ghost use Rattle.wide_reader.specs.Tree as wide;
ghost use Rattle.cel_macros.specs.Environment.{lookup};
ghost use Rattle.wide_meaning.specs.Environment as environment;
ghost use Rattle.wide_meaning.specs.Functions.{function_named};
ghost use Rattle.wide_widths.specs.Narrow as specs;
ghost use Rattle.wide_indices.specs.Known.{names_in};
ghost use Rattle.wide_indices.specs.Narrow.{binding_pair};

use crate::calls::{called, with_argument, with_two, without_arguments};
use crate::forms::{
    denotes_variables, fold_is_narrow, is_scalar, is_sum, pair_fold_is_narrow, qualified,
};
use crate::names::{Names, hides_variables, is_known, is_variable_known};
use wide_meaning::{Function, Method, Qualified};
use wide_reader::{Access, Wide};

/// The greatest number of items or entries that a literal may have.
const LITERAL_LIMIT: usize = 16;

/// Whether each item of a list literal is narrow.
#[cycle(is_narrow)]
#[tactic(auto, using(crate::proofs::ListSteps::narrow_item, crate::proofs::ListSteps::other_item, crate::proofs::ListSteps::narrow_items_end))]
fn items(given: &[(Access, Wide)], names: &Names) -> bool
    ensures { result ≡ specs.are_items_narrow (names_in names.now) (wide.items (list.map wide.item_view given.now)) }
{
    for (_, item) in given {
        if !is_narrow(item, names) {
            return false;
        }
    }
    true
}

/// Whether each value of a map literal is narrow.
#[cycle(is_narrow)]
#[tactic(auto, using(crate::proofs::ListSteps::narrow_entry, crate::proofs::ListSteps::other_entry, crate::proofs::ListSteps::narrow_entries_end))]
fn entries(given: &[(Access, Wide, Wide)], names: &Names) -> bool
    ensures { result ≡ specs.are_entries_narrow (names_in names.now) (wide.entries (list.map wide.entry_view given.now)) }
{
    for (_, _, value) in given {
        if !is_narrow(value, names) {
            return false;
        }
    }
    true
}

/// A variable, or a field of an operand.
#[cycle(is_narrow)]
fn selected(of: &Wide, access: Access, field: &str, names: &Names) -> bool
    ensures { let s = names_in names.now in result ≡ specs.selected (environment.denotes_variables (wide.view of.now) (specs.is_hidden s)) access (specs.known (lookup field.now s.variables)) (specs.is_narrow s (wide.view of.now)) }
{
    if denotes_variables(of, hides_variables(names)) && matches!(access, Access::Plain) {
        return is_variable_known(field, names);
    }
    is_narrow(of, names)
}

/// The predicate or transform of a macro with one name, by whether the range is narrow.
#[cycle(is_narrow)]
fn in_macro(item: &str, over: bool, part: &Wide, names: &Names) -> bool
    ensures { result ≡ specs.is_narrow (specs.binding item.now over (names_in names.now)) (wide.view part.now) }
{
    let inner = Names::Within(item, over, &*names);
    is_narrow(part, &inner)
}

/// The predicate or transform of a macro with two names. A key or an index is no list.
#[cycle(is_narrow)]
fn in_pair(key: &str, value: &str, over: bool, part: &Wide, names: &Names) -> bool
    ensures { result ≡ specs.is_narrow (binding_pair key.now value.now over (names_in names.now)) (wide.view part.now) }
{
    let outer = Names::Within(key, true, &*names);
    in_macro(value, over, part, &outer)
}

/// A call of a function.
#[cycle(is_narrow)]
#[tactic(auto, using(crate::proofs::CallSteps::called_with_more), unfolding(wide_widths::specs::Narrow::is_narrow))]
fn call(name: &str, given: &[Wide], names: &Names) -> bool
    ensures { result ≡ specs.called (function_named name.now) (specs.are_narrow (names_in names.now) (wide.wides (list.map wide.view given.now))) }
{
    match given {
        [argument] => called(Function::of_name(name), is_narrow(argument, names)),
        _ => false,
    }
}

/// A function with a namespace, or a method of an operand.
#[cycle(is_narrow)]
#[tactic(auto, using(crate::proofs::CallSteps::method_with_two, crate::proofs::CallSteps::method_with_more), unfolding(wide_widths::specs::Narrow::is_narrow))]
fn method(
    found: Option<Qualified>,
    known: Option<Method>,
    operand: bool,
    given: &[Wide],
    names: &Names,
) -> bool
    ensures { result ≡ specs.on_operand found known operand (specs.are_narrow (names_in names.now) (wide.wides (list.map wide.view given.now))) }
{
    match given {
        [] => without_arguments(found, known, operand),
        [argument] => with_argument(found, known, operand, is_narrow(argument, names)),
        [_, _] => with_two(found, known, operand),
        _ => false,
    }
}

/// Whether the value of an expression, and all in it, is no wider than the documents or a literal may be.
#[cycle(is_narrow)]
#[tactic(auto, using(wide_translation::proofs::WideViews::view_call, wide_translation::proofs::WideViews::view_method, wide_translation::proofs::WideViews::view_list, wide_translation::proofs::WideViews::view_map, crate::proofs::ListSteps::items_are_counted, crate::proofs::ListSteps::entries_are_counted), unfolding(wide_widths::specs::Narrow::is_narrow))]
pub(crate) fn is_narrow(e: &Wide, names: &Names) -> bool
    ensures { result ≡ specs.is_narrow (names_in names.now) (wide.view e.now) }
{
    match e {
        Wide::Literal(_) | Wide::Uint(_) | Wide::Root(_) => true,
        Wide::Name(name) => is_known(name.as_str(), names),
        Wide::Select(of, access, field) => selected(of, *access, field.as_str(), names),
        Wide::Index(of, _, _) => is_narrow(of, names),
        Wide::Has(_, _) | Wide::Unary(_, _) => true,
        Wide::Binary(operator, left, right) => {
            !is_sum(*operator) || is_scalar(left) || is_scalar(right)
        }
        Wide::Ternary(_, yes, no) => is_narrow(yes, names) && is_narrow(no, names),
        Wide::List(given) => given.len() <= LITERAL_LIMIT && items(given.as_slice(), names),
        Wide::Map(given) => given.len() <= LITERAL_LIMIT && entries(given.as_slice(), names),
        Wide::Fold(found, range, item, part) => {
            let over = is_narrow(range, names);
            let body = in_macro(item.as_str(), over, part, names);
            fold_is_narrow(*found, over, body)
        }
        Wide::FilterMap(range, item, _, transform) => {
            let over = is_narrow(range, names);
            over && in_macro(item.as_str(), over, transform, names)
        }
        Wide::PairFold(found, range, key, value, part) => {
            let over = is_narrow(range, names);
            let body = in_pair(key.as_str(), value.as_str(), over, part, names);
            pair_fold_is_narrow(*found, over, body)
        }
        Wide::PairFilterMap(range, key, value, _, transform) => {
            let over = is_narrow(range, names);
            over && in_pair(key.as_str(), value.as_str(), over, transform, names)
        }
        Wide::OptionalFold(_, of, item, transform) => {
            let operand = is_narrow(of, names);
            in_macro(item.as_str(), operand, transform, names)
        }
        Wide::Call(name, given) => call(name.as_str(), given.as_slice(), names),
        Wide::Method(of, name, given) => {
            let operand = is_narrow(of, names);
            let found = qualified(of, name.as_str());
            let known = Method::of_name(name.as_str());
            method(found, known, operand, given.as_slice(), names)
        }
    }
}
