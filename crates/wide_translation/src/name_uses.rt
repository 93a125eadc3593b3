//! Whether an expression uses a name, and a method the places of its list.

ghost use Rattle.std.specs.Prelude.{◌≡◌};
ghost use Rattle.std.specs.Prelude as list;
ghost use Rattle.wide_reader.specs.Tree as wide;
ghost use Rattle.wide_translation.specs.Uses as specs;

use wide_meaning::Method;
use wide_reader::{Access, Wide};

/// Whether one of the expressions uses the name.
#[cycle(uses)]
#[tactic(auto, using(crate::proofs::UseSteps::argument_next, crate::proofs::UseSteps::argument_found, crate::proofs::UseSteps::arguments_end))]
fn any_uses(name: &str, given: &[Wide]) -> bool
    ensures { result ≡ specs.any_uses name.now (wide.wides (list.map wide.view given.now)) }
{
    for e in given {
        if uses(name, e) {
            return true;
        }
    }
    false
}

/// Whether an item of a list literal uses the name.
#[cycle(uses)]
#[tactic(auto, using(crate::proofs::UseSteps::item_unused, crate::proofs::UseSteps::item_found, crate::proofs::UseSteps::items_done))]
fn items_use(name: &str, given: &[(Access, Wide)]) -> bool
    ensures { result ≡ specs.items_use name.now (wide.items (list.map wide.item_view given.now)) }
{
    for (_, item) in given {
        if uses(name, item) {
            return true;
        }
    }
    false
}

/// Whether a key or a value of a map literal uses the name.
#[cycle(uses)]
#[tactic(auto, using(crate::proofs::UseSteps::entry_unused, crate::proofs::UseSteps::key_found, crate::proofs::UseSteps::value_found, crate::proofs::UseSteps::entries_done))]
fn entries_use(name: &str, given: &[(Access, Wide, Wide)]) -> bool
    ensures { result ≡ specs.entries_use name.now (wide.entries (list.map wide.entry_view given.now)) }
{
    for (_, key, value) in given {
        if uses(name, key) || uses(name, value) {
            return true;
        }
    }
    false
}

/// Whether an expression uses a name: outside of the macros in it that bind the name.
#[cycle(uses)]
#[tactic(auto, using(crate::proofs::WideViews::view_call, crate::proofs::WideViews::view_method, crate::proofs::WideViews::view_list, crate::proofs::WideViews::view_map), unfolding(crate::specs::Uses::uses))]
pub fn uses(name: &str, e: &Wide) -> bool
    ensures { result ≡ specs.uses name.now (wide.view e.now) }
{
    match e {
        Wide::Literal(_) | Wide::Uint(_) | Wide::Root(_) => false,
        Wide::Name(given) => given.as_str() == name,
        Wide::Select(of, _, _) => uses(name, of),
        Wide::Index(of, _, at) => uses(name, of) || uses(name, at),
        Wide::Has(of, _) => uses(name, of),
        Wide::Unary(_, of) => uses(name, of),
        Wide::Binary(_, left, right) => uses(name, left) || uses(name, right),
        Wide::Ternary(condition, yes, no) => {
            uses(name, condition) || uses(name, yes) || uses(name, no)
        }
        Wide::List(given) => items_use(name, given.as_slice()),
        Wide::Map(given) => entries_use(name, given.as_slice()),
        Wide::Fold(_, range, item, part) => {
            uses(name, range) || (item.as_str() != name && uses(name, part))
        }
        Wide::FilterMap(range, item, predicate, transform) => {
            uses(name, range)
                || (item.as_str() != name && (uses(name, predicate) || uses(name, transform)))
        }
        Wide::PairFold(_, range, key, value, part) => {
            uses(name, range)
                || (key.as_str() != name && value.as_str() != name && uses(name, part))
        }
        Wide::PairFilterMap(range, key, value, predicate, transform) => {
            uses(name, range)
                || (key.as_str() != name
                    && value.as_str() != name
                    && (uses(name, predicate) || uses(name, transform)))
        }
        Wide::OptionalFold(_, of, item, part) => {
            uses(name, of) || (item.as_str() != name && uses(name, part))
        }
        Wide::Call(_, arguments) => any_uses(name, arguments.as_slice()),
        Wide::Method(of, _, arguments) => uses(name, of) || any_uses(name, arguments.as_slice()),
    }
}

/// Whether the method of this name, if there is one, looks at the places of its list, for which a translation uses the table
/// of indices.
pub fn needs_indices(name: &str) -> bool
    ensures { result ≡ specs.needs_indices name.now }
{
    matches!(
        Method::of_name(name),
        Some(
            Method::IsSorted
                | Method::Distinct
                | Method::Reverse
                | Method::Slice
                | Method::IndexOf
                | Method::LastIndexOf
        )
    )
}
