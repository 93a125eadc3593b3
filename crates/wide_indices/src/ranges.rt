//! Whether the ranges are narrow of which macros with two names use the keys or indices.

ghost use Rattle.std.specs.Prelude.{◌≡◌};
ghost use Rattle.std.specs.Prelude as list;
ghost use Rattle.wide_reader.specs.Tree as wide;
ghost use Rattle.wide_widths.specs.Narrow.{binding};
ghost use Rattle.wide_indices.specs.Known.{names_in};
ghost use Rattle.wide_indices.specs.Narrow as specs;

use crate::names::Names;
use crate::widths::is_narrow;
use wide_reader::{Access, Wide};
use wide_translation::{needs_indices, uses};

/// The arguments of a call.
#[cycle(has_narrow_ranges)]
#[tactic(auto, using(crate::proofs::ListSteps::argument_next, crate::proofs::ListSteps::argument_found, crate::proofs::ListSteps::arguments_end))]
fn arguments(given: &[Wide], names: &Names) -> bool
    ensures { result ≡ specs.all_have_narrow_ranges (names_in names.now) (wide.wides (list.map wide.view given.now)) }
{
    for argument in given {
        if !has_narrow_ranges(argument, names) {
            return false;
        }
    }
    true
}

/// The items of a list literal.
#[cycle(has_narrow_ranges)]
#[tactic(auto, using(crate::proofs::ListSteps::item_next, crate::proofs::ListSteps::item_found, crate::proofs::ListSteps::items_end))]
fn items(given: &[(Access, Wide)], names: &Names) -> bool
    ensures { result ≡ specs.items_have_narrow_ranges (names_in names.now) (wide.items (list.map wide.item_view given.now)) }
{
    for (_, item) in given {
        if !has_narrow_ranges(item, names) {
            return false;
        }
    }
    true
}

/// The keys and values of a map literal.
#[cycle(has_narrow_ranges)]
#[tactic(auto, using(crate::proofs::ListSteps::entry_next, crate::proofs::ListSteps::key_found, crate::proofs::ListSteps::value_found, crate::proofs::ListSteps::entries_end))]
fn entries(given: &[(Access, Wide, Wide)], names: &Names) -> bool
    ensures { result ≡ specs.entries_have_narrow_ranges (names_in names.now) (wide.entries (list.map wide.entry_view given.now)) }
{
    for (_, key, value) in given {
        if !has_narrow_ranges(key, names) || !has_narrow_ranges(value, names) {
            return false;
        }
    }
    true
}

/// The predicate or transform of a macro with one name, by whether the range is narrow.
#[cycle(has_narrow_ranges)]
fn in_macro(item: &str, over: bool, part: &Wide, names: &Names) -> bool
    ensures { result ≡ specs.has_narrow_ranges (binding item.now over (names_in names.now)) (wide.view part.now) }
{
    let inner = Names::Within(item, over, &*names);
    has_narrow_ranges(part, &inner)
}

/// The predicate or transform of a macro with two names. A key or an index is no list.
#[cycle(has_narrow_ranges)]
fn in_pair(key: &str, value: &str, over: bool, part: &Wide, names: &Names) -> bool
    ensures { result ≡ specs.has_narrow_ranges (specs.binding_pair key.now value.now over (names_in names.now)) (wide.view part.now) }
{
    let outer = Names::Within(key, true, &*names);
    in_macro(value, over, part, &outer)
}

/// Whether each range in an expression of which a macro with two names uses the keys or indices is narrow, and the list of
/// each method that looks at its places.
#[cycle(has_narrow_ranges)]
#[tactic(auto, using(wide_translation::proofs::WideViews::view_call, wide_translation::proofs::WideViews::view_method, wide_translation::proofs::WideViews::view_list, wide_translation::proofs::WideViews::view_map), unfolding(crate::specs::Narrow::has_narrow_ranges))]
pub(crate) fn has_narrow_ranges(e: &Wide, names: &Names) -> bool
    ensures { result ≡ specs.has_narrow_ranges (names_in names.now) (wide.view e.now) }
{
    match e {
        Wide::Literal(_) | Wide::Uint(_) | Wide::Name(_) | Wide::Root(_) => true,
        Wide::Select(of, _, _) => has_narrow_ranges(of, names),
        Wide::Index(of, _, at) => has_narrow_ranges(of, names) && has_narrow_ranges(at, names),
        Wide::Has(of, _) => has_narrow_ranges(of, names),
        Wide::Unary(_, of) => has_narrow_ranges(of, names),
        Wide::Binary(_, left, right) => {
            has_narrow_ranges(left, names) && has_narrow_ranges(right, names)
        }
        Wide::Ternary(condition, yes, no) => {
            has_narrow_ranges(condition, names)
                && (has_narrow_ranges(yes, names) && has_narrow_ranges(no, names))
        }
        Wide::List(given) => items(given.as_slice(), names),
        Wide::Map(given) => entries(given.as_slice(), names),
        Wide::Fold(_, range, item, part) => {
            let over = is_narrow(range, names);
            has_narrow_ranges(range, names) && in_macro(item.as_str(), over, part, names)
        }
        Wide::FilterMap(range, item, predicate, transform) => {
            let over = is_narrow(range, names);
            has_narrow_ranges(range, names)
                && (in_macro(item.as_str(), over, predicate, names)
                    && in_macro(item.as_str(), over, transform, names))
        }
        Wide::PairFold(_, range, key, value, part) => {
            let over = is_narrow(range, names);
            has_narrow_ranges(range, names)
                && ((!uses(key.as_str(), part) || over)
                    && in_pair(key.as_str(), value.as_str(), over, part, names))
        }
        Wide::PairFilterMap(range, key, value, predicate, transform) => {
            let over = is_narrow(range, names);
            let is_used = uses(key.as_str(), predicate) || uses(key.as_str(), transform);
            has_narrow_ranges(range, names)
                && ((!is_used || over)
                    && (in_pair(key.as_str(), value.as_str(), over, predicate, names)
                        && in_pair(key.as_str(), value.as_str(), over, transform, names)))
        }
        Wide::OptionalFold(_, of, item, transform) => {
            let over = is_narrow(of, names);
            has_narrow_ranges(of, names) && in_macro(item.as_str(), over, transform, names)
        }
        Wide::Call(_, given) => arguments(given.as_slice(), names),
        Wide::Method(of, name, given) => {
            has_narrow_ranges(of, names)
                && ((!needs_indices(name.as_str()) || is_narrow(of, names))
                    && arguments(given.as_slice(), names))
        }
    }
}
