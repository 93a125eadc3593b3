//! Whether an expression has a reach.

ghost use Rattle.std.specs.Prelude.{◌≡◌, false};
ghost use Rattle.std.specs.Prelude as list;
ghost use Rattle.wide_reader.specs.Tree as wide;
ghost use Rattle.cel_macros.specs.Environment.{lookup};
ghost use Rattle.wide_meaning.specs.Environment as environment;
ghost use Rattle.wide_meaning.specs.Functions.{function_named};
ghost use Rattle.wide_reach.specs.Known as specs;
ghost use Rattle.wide_reach.specs.Scope.{names_in};

use crate::forms::{
    binary_known, denotes_variables, fold_known, pair_fold_known, qualified, unary_known,
};
use crate::methods::{called, called_alone, called_with_one, called_with_two};
use crate::scope::{Scope, hides_variables, is_known, is_variable_known};
use wide_meaning::{Function, Method, Qualified};
use wide_reader::{Access, Wide};

/// Whether each item of a list literal has a reach.
#[cycle(has_reach)]
#[tactic(auto, using(crate::proofs::ListSteps::known_item, crate::proofs::ListSteps::other_item, crate::proofs::ListSteps::items_end))]
fn items(given: &[(Access, Wide)], scope: &Scope) -> bool
    ensures { result ≡ specs.items_have_reach (names_in scope.now) (wide.items (list.map wide.item_view given.now)) }
{
    for (_, item) in given {
        if !has_reach(item, scope) {
            return false;
        }
    }
    true
}

/// A variable, or a field of an operand.
#[cycle(has_reach)]
fn selected(of: &Wide, access: Access, field: &str, scope: &Scope) -> bool
    ensures { let s = names_in scope.now in result ≡ specs.selected (environment.denotes_variables (wide.view of.now) (specs.is_hidden s)) access (specs.known (lookup field.now s.variables)) (specs.has_reach s (wide.view of.now)) }
{
    if denotes_variables(of, hides_variables(scope)) && matches!(access, Access::Plain) {
        return is_variable_known(field, scope);
    }
    has_reach(of, scope)
}

/// The predicate or transform of a macro with one name, by whether the range has a reach.
#[cycle(has_reach)]
fn in_macro(item: &str, over: bool, part: &Wide, scope: &Scope) -> bool
    ensures { result ≡ specs.has_reach (specs.binding item.now over (names_in scope.now)) (wide.view part.now) }
{
    let inner = Scope::Within(item, over, &*scope);
    has_reach(part, &inner)
}

/// The predicate or transform of a macro with two names. A key or an index has no reach.
#[cycle(has_reach)]
fn in_pair(key: &str, value: &str, over: bool, part: &Wide, scope: &Scope) -> bool
    ensures { result ≡ specs.has_reach (specs.binding value.now over (specs.binding key.now false (names_in scope.now))) (wide.view part.now) }
{
    let outer = Scope::Within(key, false, &*scope);
    in_macro(value, over, part, &outer)
}

/// A call of a function.
#[cycle(has_reach)]
#[tactic(auto, using(crate::proofs::CallSteps::called_with_more), unfolding(crate::specs::Known::has_reach))]
fn call(name: &str, given: &[Wide], scope: &Scope) -> bool
    ensures { result ≡ specs.called_with (function_named name.now) (specs.have_reach (names_in scope.now) (wide.wides (list.map wide.view given.now))) }
{
    match given {
        [argument] => called(Function::of_name(name), has_reach(argument, scope)),
        _ => false,
    }
}

/// A function with a namespace, or a method of an operand.
#[cycle(has_reach)]
#[tactic(auto, using(crate::proofs::CallSteps::method_with_two, crate::proofs::CallSteps::method_with_more), unfolding(crate::specs::Known::has_reach))]
fn method(
    found: Option<Qualified>,
    known: Option<Method>,
    operand: bool,
    given: &[Wide],
    scope: &Scope,
) -> bool
    ensures { result ≡ specs.on_operand found known operand (specs.have_reach (names_in scope.now) (wide.wides (list.map wide.view given.now))) }
{
    match given {
        [] => called_alone(found, known, operand),
        [argument] => called_with_one(found, known, operand, has_reach(argument, scope)),
        [_, _] => called_with_two(found, known, operand),
        _ => false,
    }
}

/// Whether an expression has a reach, if its names are these.
#[cycle(has_reach)]
#[tactic(auto, using(crate::proofs::WideViews::view_call, crate::proofs::WideViews::view_method, crate::proofs::WideViews::view_list, crate::proofs::WideViews::view_map), unfolding(crate::specs::Known::has_reach))]
pub fn has_reach(e: &Wide, scope: &Scope) -> bool
    ensures { result ≡ specs.has_reach (names_in scope.now) (wide.view e.now) }
{
    match e {
        Wide::Literal(_) | Wide::Uint(_) | Wide::Root(_) | Wide::Has(_, _) => true,
        Wide::Name(name) => is_known(name.as_str(), scope),
        Wide::Select(of, access, field) => selected(of, *access, field.as_str(), scope),
        Wide::Index(of, _, _) => has_reach(of, scope),
        Wide::Unary(operator, _) => unary_known(*operator),
        Wide::Binary(operator, left, right) => {
            let first = has_reach(left, scope);
            let second = has_reach(right, scope);
            binary_known(*operator, first, second)
        }
        Wide::Ternary(_, yes, no) => has_reach(yes, scope) && has_reach(no, scope),
        Wide::List(given) => items(given.as_slice(), scope),
        Wide::Map(_) => false,
        Wide::Fold(found, range, item, part) => {
            let over = has_reach(range, scope);
            let body = in_macro(item.as_str(), over, part, scope);
            fold_known(*found, over, body)
        }
        Wide::FilterMap(range, item, _, transform) => {
            let over = has_reach(range, scope);
            in_macro(item.as_str(), over, transform, scope)
        }
        Wide::PairFold(found, range, key, value, part) => {
            let over = has_reach(range, scope);
            let body = in_pair(key.as_str(), value.as_str(), over, part, scope);
            pair_fold_known(*found, body)
        }
        Wide::PairFilterMap(range, key, value, _, transform) => {
            let over = has_reach(range, scope);
            in_pair(key.as_str(), value.as_str(), over, transform, scope)
        }
        Wide::OptionalFold(_, of, item, transform) => {
            let operand = has_reach(of, scope);
            in_macro(item.as_str(), operand, transform, scope)
        }
        Wide::Call(name, given) => call(name.as_str(), given.as_slice(), scope),
        Wide::Method(of, name, given) => {
            let operand = has_reach(of, scope);
            let found = qualified(of, name.as_str());
            let known = Method::of_name(name.as_str());
            method(found, known, operand, given.as_slice(), scope)
        }
    }
}
