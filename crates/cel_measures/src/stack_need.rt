//! Counts the stack words that an expression needs.

ghost use Rattle.std.specs.Prelude.{◌≡◌};
ghost use Rattle.std.specs.Prelude as list;
ghost use Rattle.cel_macros.specs.CoreView.{core_view, cores, core_entries};
ghost use Rattle.cel_macros.specs.Expanding.{core_pair};
ghost use Rattle.cel_measures.specs.Measures as specs;
ghost use Rattle.cel_measures.specs.Saturated.{saturated};

use crate::saturating::{greater, plus};
use cel_macros::Core;

/// The greatest need of these.
#[cycle(need)]
#[tactic(auto, unfolding(crate::specs::Measures::need))]
fn greatest_need(parts: &[Core]) -> u64
    ensures { result ≡ saturated (specs.needs (cores (list.map core_view parts.now))) }
{
    let mut most = 0;
    for part in parts {
        most = greater(most, need(part));
    }
    most
}

/// The greatest need of these, plus one word that is kept before them.
#[cycle(need)]
#[tactic(auto, unfolding(crate::specs::Measures::need))]
fn need_behind(parts: &[Core]) -> u64
    ensures { result ≡ saturated (specs.needs_behind (cores (list.map core_view parts.now))) }
{
    let mut most = 0;
    for part in parts {
        most = greater(most, plus(1, need(part)));
    }
    most
}

/// The greatest need of these keys, plus one word each, and of these values, plus two words each.
#[cycle(need)]
#[tactic(auto, unfolding(crate::specs::Measures::need))]
fn entries_need(pairs: &[(Core, Core)]) -> u64
    ensures { result ≡ saturated (specs.entries_need (core_entries (list.map core_pair pairs.now))) }
{
    let mut most = 0;
    for (key, value) in pairs {
        most = greater(most, greater(plus(1, need(key)), plus(2, need(value))));
    }
    most
}

/// The need of a call.
#[cycle(need)]
#[tactic(auto, using(crate::proofs::Calls::need_of_none, crate::proofs::Calls::need_of_many), unfolding(crate::specs::Measures::need))]
fn call_need(arguments: &[Core]) -> u64
    ensures { result ≡ saturated (specs.call_need (cores (list.map core_view arguments.now))) }
{
    match arguments {
        [] => 1,
        [operand] => need(operand),
        _ => plus(1, greatest_need(arguments)),
    }
}

/// The number of stack words that the code of the expression needs, including the word of its
/// value. An operand is kept in a word while later operands are evaluated, and a list or map
/// literal while its parts are; a macro keeps five words while its other parts are evaluated. The
/// number is capped at 2^64 - 1. Nothing is allocated.
#[cycle(need)]
#[tactic(auto, using(cel_macros::specs::CoreViewLaws::view_map), unfolding(crate::specs::Measures::need))]
pub fn need(core: &Core) -> u64
    ensures { result ≡ saturated (specs.need (core_view core.now)) }
{
    match core {
        Core::Literal(_) | Core::Name(_) | Core::Variable(_) => 1,
        Core::Select(of, _) | Core::Has(of, _) | Core::Unary(_, of) => need(of),
        Core::Index(a, b) | Core::Binary(_, a, b) => greater(need(a), plus(1, need(b))),
        Core::Call(_, arguments) => call_need(arguments.as_slice()),
        Core::Method(of, _, arguments) => greater(need(of), need_behind(arguments.as_slice())),
        Core::Ternary(a, b, c) => greater(need(a), greater(need(b), need(c))),
        Core::List(items) => plus(1, greatest_need(items.as_slice())),
        Core::Map(pairs) => greater(1, entries_need(pairs.as_slice())),
        Core::Fold(_, _, range, part) => greater(need(range), plus(5, need(part))),
        Core::FoldMap(_, range, a, b) => {
            greater(need(range), plus(5, greater(need(a), need(b))))
        }
    }
}
