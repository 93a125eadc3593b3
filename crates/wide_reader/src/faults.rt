//! Tests for invalid macros.

ghost use Rattle.std.specs.Prelude.{◌≡◌};
ghost use Rattle.std.specs.Prelude as list;
ghost use Rattle.wide_reader.specs.Tree.{view, item_view, entry_view, wides, items, entries};
ghost use Rattle.wide_reader.specs.Forms.{form_of};
ghost use Rattle.wide_reader.specs.Faults.{fault, wides_fault, items_fault, entries_fault, call_fault, form_fault};

use crate::form::{Form, form_of, is_has};
use crate::wide::{Access, Wide};
use crate::wide_error::MacroFault;

/// The fault of a call of `has` that is left.
#[tactic(auto, using(crate::proofs::Formed::fault_of_none, crate::proofs::Formed::fault_of_one, crate::proofs::Formed::fault_of_more))]
fn call_fault(name: &str, arguments: &[Wide]) -> Option<MacroFault>
    ensures { result ≡ call_fault name.now (wides (list.map view arguments.now)) }
{
    if !is_has(name) {
        return None;
    }
    match arguments {
        [_] => Some(MacroFault::NoSelection),
        _ => Some(MacroFault::ArgumentCount),
    }
}

/// The fault of a method that is left although it has the form of a macro.
fn method_fault(name: &str, count: usize) -> Option<MacroFault>
    ensures { result ≡ form_fault (form_of name.now count) }
{
    match form_of(name, count) {
        None => None,
        Some(Form::ComputedMap) => Some(MacroFault::ComputedMap),
        Some(_) => Some(MacroFault::IterationName),
    }
}

/// The fault of the first invalid macro in these arguments.
#[cycle(faults)]
#[tactic(auto, unfolding(crate::specs::Faults::fault))]
fn wides_fault(arguments: &[Wide]) -> Option<MacroFault>
    ensures { result ≡ wides_fault (wides (list.map view arguments.now)) }
{
    for argument in arguments {
        if let Some(found) = fault(argument) {
            return Some(found);
        }
    }
    None
}

/// The fault of the first invalid macro in these items.
#[cycle(faults)]
#[tactic(auto, unfolding(crate::specs::Faults::fault))]
fn items_fault(parts: &[(Access, Wide)]) -> Option<MacroFault>
    ensures { result ≡ items_fault (items (list.map item_view parts.now)) }
{
    for (_, part) in parts {
        if let Some(found) = fault(part) {
            return Some(found);
        }
    }
    None
}

/// The fault of the first invalid macro in these keys and values.
#[cycle(faults)]
#[tactic(auto, unfolding(crate::specs::Faults::fault))]
fn entries_fault(parts: &[(Access, Wide, Wide)]) -> Option<MacroFault>
    ensures { result ≡ entries_fault (entries (list.map entry_view parts.now)) }
{
    for (_, key, value) in parts {
        if let Some(found) = fault(key).or(fault(value)) {
            return Some(found);
        }
    }
    None
}

/// The fault of the first invalid macro: a node before its parts, parts from left to right.
#[cycle(faults)]
#[tactic(auto, unfolding(crate::specs::Faults::fault))]
pub fn fault(wide: &Wide) -> Option<MacroFault>
    ensures { result ≡ fault (view wide.now) }
{
    match wide {
        Wide::Literal(_) | Wide::Uint(_) | Wide::Name(_) | Wide::Root(_) => None,
        Wide::Select(of, _, _) | Wide::Has(of, _) | Wide::Unary(_, of) => fault(of),
        Wide::Index(a, _, b)
        | Wide::Binary(_, a, b)
        | Wide::Fold(_, a, _, b)
        | Wide::OptionalFold(_, a, _, b)
        | Wide::PairFold(_, a, _, _, b) => fault(a).or(fault(b)),
        Wide::Ternary(a, b, c) => fault(a).or(fault(b).or(fault(c))),
        Wide::FilterMap(a, _, b, c) | Wide::PairFilterMap(a, _, _, b, c) => {
            fault(a).or(fault(b).or(fault(c)))
        }
        Wide::List(parts) => items_fault(parts.as_slice()),
        Wide::Map(parts) => entries_fault(parts.as_slice()),
        Wide::Call(name, arguments) => {
            call_fault(name.as_str(), arguments.as_slice()).or(wides_fault(arguments.as_slice()))
        }
        Wide::Method(of, name, arguments) => method_fault(name.as_str(), arguments.len()).or(fault(
            of,
        ).or(wides_fault(arguments.as_slice()))),
    }
}
