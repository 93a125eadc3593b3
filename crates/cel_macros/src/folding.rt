//! Builds macros from calls and methods whose parts are expanded.

ghost use Rattle.std.specs.Prelude.{◌≡◌, IfOk, [], ◌∷◌, length, string_bytes};
ghost use Rattle.std.specs.Prelude as list;
ghost use Rattle.cel_macros.specs.CoreTree.{name};
ghost use Rattle.cel_macros.specs.CoreView.{core_view, cores};
ghost use Rattle.cel_macros.specs.Expanding.{core_name, core_selection, has_or_call, call_with, call_of, method_of, HasShape, IsPair, IsTriple, IsFoldMap};

use crate::build;
use crate::core_tree::Core;
use crate::names::{VARIABLES, is_has, is_map, macro_named};
use crate::shape::Shape;
use std::alloc::{AllocError, Global};

/// The call of `has`, which is the macro if its argument is a selection.
fn has_of(alloc: Global, name: &str, argument: Core) -> Result<Core, AllocError>
    ensures { IfOk result (λ c. core_view c ≡ has_or_call list.true (core_selection (core_view argument)) name.now (core_view argument)) }
{
    match argument {
        Core::Select(of, field) => Ok(Core::Has(of, field)),
        Core::Variable(field) => {
            let variables = String::from_str(alloc, VARIABLES)?;
            build::has(alloc, Core::Name(variables), field)
        }
        other => {
            let mut arguments = Vec::new(alloc);
            arguments.push(other)?;
            build::call(alloc, name, arguments)
        }
    }
}

/// The call of `has` with one argument.
fn has_of_only(alloc: Global, name: &str, mut arguments: Vec<Core>) -> Result<Core, AllocError>
    requires { length arguments.items ≡ 1 }
    ensures { IfOk result (λ c. core_view c ≡ call_with list.true name.now (cores (list.map core_view arguments.items))) }
{
    match arguments.pop() {
        Some(argument) => has_of(alloc, name, argument),
        None => unreachable!(),
    }
}

/// The call of a function with these arguments, or the macro `has`.
pub(crate) fn call(alloc: Global, name: &str, arguments: Vec<Core>) -> Result<Core, AllocError>
    ensures { IfOk result (λ c. core_view c ≡ call_of name.now (cores (list.map core_view arguments.items))) }
{
    if !is_has(name) {
        return build::call(alloc, name, arguments);
    }
    if arguments.len() != 1 {
        return build::call(alloc, name, arguments);
    }
    has_of_only(alloc, name, arguments)
}

/// Whether the expression is a name.
fn is_name(core: &Core) -> bool
    ensures { result ≡ list.is_some (core_name (core_view core.now)) }
{
    matches!(core, Core::Name(_))
}

/// The shape of the arguments.
#[tactic(auto, using(crate::proofs::PartsExpanded::other_few, crate::proofs::PartsExpanded::other_many, crate::proofs::PartsExpanded::pair_shape, crate::proofs::PartsExpanded::triple_shape))]
fn shape(arguments: &[Core]) -> Shape
    ensures { HasShape result (list.map core_view arguments.now) }
{
    match arguments {
        [first, _] => {
            if is_name(first) {
                return Shape::Pair;
            }
            Shape::Other
        }
        [first, _, _] => {
            if is_name(first) {
                return Shape::Triple;
            }
            Shape::Other
        }
        _ => Shape::Other,
    }
}

/// The name and the other argument.
fn pair_parts(mut arguments: Vec<Core>) -> (String, Core)
    requires { IsPair (list.map core_view arguments.items) }
    ensures { list.map core_view arguments.items ≡ name (string_bytes result.0) ∷ core_view result.1 ∷ [] }
{
    let part = arguments.pop();
    let first = arguments.pop();
    match (first, part) {
        (Some(Core::Name(item)), Some(part)) => (item, part),
        _ => unreachable!(),
    }
}

/// The macro with two arguments, or the method.
fn pair(alloc: Global, of: Box<Core>, name: &str, arguments: Vec<Core>) -> Result<Core, AllocError>
    requires { IsPair (list.map core_view arguments.items) }
    ensures { IfOk result (λ c. core_view c ≡ method_of (core_view of.value) name.now (cores (list.map core_view arguments.items))) }
{
    match macro_named(name) {
        None => build::method(alloc, of, name, arguments),
        Some(found) => {
            let (item, part) = pair_parts(arguments);
            build::fold(alloc, found, item, of, part)
        }
    }
}

/// The macro `map` with three arguments.
fn fold_map(alloc: Global, of: Box<Core>, mut arguments: Vec<Core>) -> Result<Core, AllocError>
    requires { IsTriple (list.map core_view arguments.items) }
    ensures { IfOk result (λ c. IsFoldMap (core_view c) (core_view of.value) (list.map core_view arguments.items)) }
{
    match arguments.pop() {
        Some(transform) => {
            let (item, predicate) = pair_parts(arguments);
            build::fold_map(alloc, item, of, predicate, transform)
        }
        None => unreachable!(),
    }
}

/// The macro `map` with three arguments, or the method.
fn triple(
    alloc: Global,
    of: Box<Core>,
    name: &str,
    arguments: Vec<Core>,
) -> Result<Core, AllocError>
    requires { IsTriple (list.map core_view arguments.items) }
    ensures { IfOk result (λ c. core_view c ≡ method_of (core_view of.value) name.now (cores (list.map core_view arguments.items))) }
{
    if is_map(name) {
        return fold_map(alloc, of, arguments);
    }
    build::method(alloc, of, name, arguments)
}

/// The call of a method with these arguments, or a macro over a range.
pub(crate) fn method(
    alloc: Global,
    of: Box<Core>,
    name: &str,
    arguments: Vec<Core>,
) -> Result<Core, AllocError>
    ensures { IfOk result (λ c. core_view c ≡ method_of (core_view of.value) name.now (cores (list.map core_view arguments.items))) }
{
    match shape(arguments.as_slice()) {
        Shape::Pair => pair(alloc, of, name, arguments),
        Shape::Triple => triple(alloc, of, name, arguments),
        Shape::Other => build::method(alloc, of, name, arguments),
    }
}
