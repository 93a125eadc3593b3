//! Counts the nodes of an expression.

ghost use Rattle.std.specs.Prelude.{◌≡◌};
ghost use Rattle.std.specs.Prelude as list;
ghost use Rattle.cel_macros.specs.CoreView.{core_view, cores, core_entries};
ghost use Rattle.cel_macros.specs.Expanding.{core_pair};
ghost use Rattle.cel_measures.specs.Measures as specs;
ghost use Rattle.cel_measures.specs.Saturated.{saturated};

use crate::saturating::plus;
use cel_macros::Core;

/// The nodes of all of these.
#[cycle(nodes)]
#[tactic(auto, unfolding(crate::specs::Measures::nodes))]
fn parts_nodes(parts: &[Core]) -> u64
    ensures { result ≡ saturated (specs.nodes_of (cores (list.map core_view parts.now))) }
{
    let mut total = 0;
    for part in parts {
        total = plus(total, nodes(part));
    }
    total
}

/// The nodes of all of these keys and values.
#[cycle(nodes)]
#[tactic(auto, unfolding(crate::specs::Measures::nodes))]
fn entries_nodes(pairs: &[(Core, Core)]) -> u64
    ensures { result ≡ saturated (specs.entries_nodes (core_entries (list.map core_pair pairs.now))) }
{
    let mut total = 0;
    for (key, value) in pairs {
        total = plus(total, plus(nodes(key), nodes(value)));
    }
    total
}

/// The number of nodes of the expression: one for each literal, name, variable, selection, `has`,
/// index, call, operator, ternary, list or map literal and macro. The number is capped at 2^64 - 1.
/// Nothing is allocated.
#[cycle(nodes)]
#[tactic(auto, using(cel_macros::specs::CoreViewLaws::view_map), unfolding(crate::specs::Measures::nodes))]
pub fn nodes(core: &Core) -> u64
    ensures { result ≡ saturated (specs.nodes (core_view core.now)) }
{
    match core {
        Core::Literal(_) | Core::Name(_) | Core::Variable(_) => 1,
        Core::Select(of, _) | Core::Has(of, _) | Core::Unary(_, of) => plus(1, nodes(of)),
        Core::Index(a, b) | Core::Binary(_, a, b) | Core::Fold(_, _, a, b) => {
            plus(plus(1, nodes(a)), nodes(b))
        }
        Core::Call(_, arguments) => plus(1, parts_nodes(arguments.as_slice())),
        Core::Method(of, _, arguments) => {
            plus(plus(1, nodes(of)), parts_nodes(arguments.as_slice()))
        }
        Core::Ternary(a, b, c) | Core::FoldMap(_, a, b, c) => {
            plus(plus(plus(1, nodes(a)), nodes(b)), nodes(c))
        }
        Core::List(items) => plus(1, parts_nodes(items.as_slice())),
        Core::Map(pairs) => plus(1, entries_nodes(pairs.as_slice())),
    }
}
