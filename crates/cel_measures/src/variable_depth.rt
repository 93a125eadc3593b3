//! The depth of a variable.

ghost use Rattle.std.specs.Prelude.{◌≡◌};
ghost use Rattle.std.specs.Prelude as list;
ghost use Rattle.cel_macros.specs.CoreView.{core_view, cores, core_entries};
ghost use Rattle.cel_macros.specs.Environment.{lookup};
ghost use Rattle.cel_macros.specs.Expanding.{core_pair};
ghost use Rattle.cel_types.specs.Declarations.{declaration, depths_of};
ghost use Rattle.cel_measures.specs.Measures as specs;
ghost use Rattle.cel_measures.specs.Saturated.{saturated};

use crate::saturating::{greater, plus};
use cel_macros::Core;
use cel_types::{Scope, Variable};

/// The depth of the first variable with this name, 0 if there is none.
fn depth_named(name: &str, variables: &[Variable]) -> u64
    ensures { result ≡ list.unwrap_or (lookup name.now (depths_of (list.map declaration variables.now))) 0 }
{
    for variable in variables {
        if variable.name.as_str() == name {
            return variable.depth;
        }
    }
    0
}

/// The greatest depth of the variables that these expressions use.
#[cycle(deepest)]
#[tactic(auto, unfolding(crate::specs::Measures::deepest))]
fn parts_deepest(parts: &[Core], variables: &[Variable]) -> u64
    ensures { result ≡ specs.deepest_of (cores (list.map core_view parts.now)) (depths_of (list.map declaration variables.now)) }
{
    let mut most = 0;
    for part in parts {
        most = greater(most, deepest(part, variables));
    }
    most
}

/// The greatest depth of the variables that these keys and values use.
#[cycle(deepest)]
#[tactic(auto, unfolding(crate::specs::Measures::deepest))]
fn entries_deepest(pairs: &[(Core, Core)], variables: &[Variable]) -> u64
    ensures { result ≡ specs.entries_deepest (core_entries (list.map core_pair pairs.now)) (depths_of (list.map declaration variables.now)) }
{
    let mut most = 0;
    for (key, value) in pairs {
        most = greater(
            most,
            greater(deepest(key, variables), deepest(value, variables)),
        );
    }
    most
}

/// The greatest depth of the variables that the expression uses, 0 if it uses none.
#[cycle(deepest)]
#[tactic(auto, unfolding(crate::specs::Measures::deepest))]
fn deepest(core: &Core, variables: &[Variable]) -> u64
    ensures { result ≡ specs.deepest (core_view core.now) (depths_of (list.map declaration variables.now)) }
{
    match core {
        Core::Literal(_) | Core::Name(_) => 0,
        Core::Variable(name) => depth_named(name.as_str(), variables),
        Core::Select(of, _) | Core::Has(of, _) | Core::Unary(_, of) => deepest(of, variables),
        Core::Index(a, b) | Core::Binary(_, a, b) | Core::Fold(_, _, a, b) => {
            greater(deepest(a, variables), deepest(b, variables))
        }
        Core::Call(_, arguments) => parts_deepest(arguments.as_slice(), variables),
        Core::Method(of, _, arguments) => greater(
            deepest(of, variables),
            parts_deepest(arguments.as_slice(), variables),
        ),
        Core::Ternary(a, b, c) | Core::FoldMap(_, a, b, c) => greater(
            deepest(a, variables),
            greater(deepest(b, variables), deepest(c, variables)),
        ),
        Core::List(items) => parts_deepest(items.as_slice(), variables),
        Core::Map(pairs) => entries_deepest(pairs.as_slice(), variables),
    }
}

/// The depth of a variable with this expression in this scope: one more than the greatest depth of
/// the variables that it uses, so 1 if it uses none. The depth is capped at 2^64 - 1. Nothing is
/// allocated.
pub fn depth(core: &Core, scope: &Scope) -> u64
    ensures { result ≡ saturated (specs.depth (core_view core.now) (depths_of scope.now)) }
{
    plus(1, deepest(core, scope.variables()))
}
