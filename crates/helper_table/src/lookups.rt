//! The helpers that look up a part of a map, a list or a text.
ghost use Rattle.std.specs.Prelude.{◌≡◌, Some, List, is_some, option_and_then, option_map, slice_get};
ghost use Rattle.helper_table.specs.Calls.{on_value, on_values, on_range};
ghost use Rattle.helper_table.specs.Lookups.{value_under, field_row, has_row, index_row, size_row, item_row, count_row};
ghost use Rattle.helper_table.specs.Outcome.{found};
ghost use Rattle.helper_table.specs.Effects.{means, CanFollow, outcome_by, CanDo};
ghost use Rattle.value_store.specs.Calls.{entries_at, part_at, key_at};
ghost use Rattle.value_store.specs.Lookup.{place_of_key};
ghost use Rattle.value_store.specs.Seen.{outcome_view, sees_list, sees_map};
ghost use Rattle.value_store.specs.Value.{ValueOrError};

use crate::helper_effect::HelperEffect;
use crate::operands::{is_map, operand, place_part, range};
use crate::placement::Placement;
use guest_memory::{Fault, Regions};
use text_kernels::code_points;
use value_store::{Shape, ValueStore};

/// The position of a map's entry at a key.
fn place_under<V: ValueStore>(table: &V, m: u64, key: &[u8]) -> Option<u64>
    ensures { result ≡ option_and_then (place_of_key key.now) (entries_at (slice_get (V.values table.now) m)) }
{
    if is_map(table, m) {
        table.find(m, key)
    } else {
        None
    }
}

/// A map's value at a key, to be placed; the word of the error if there is none.
fn part_under<V: ValueStore>(table: &V, m: u64, key: &[u8]) -> HelperEffect<'static>
    ensures means { outcome_by (V.values table.now) result.placement result.added ≡ found (value_under (slice_get (V.values table.now) m) key.now) }
    ensures can { CanDo (V.values table.now) result.placement }
{
    match place_under(table, m, key) {
        Some(place) => HelperEffect::free(Placement::Part(m, place)),
        None => HelperEffect::word(0),
    }
}

/// Helper 5: a map's value at a key in the constants.
#[tactic(auto, using(crate::proofs::Seeing::by_lent, crate::proofs::Seeing::by_operand), unfolding(crate::specs::Lookups::field_row))]
pub(crate) fn field<V: ValueStore, M: Regions>(
    table: &V,
    memory: &M,
    m: u64,
    addr: u64,
    len: u64,
) -> Result<HelperEffect<'static>, Fault>
    ensures means { means (V.values table.now) result ≡ on_value (V.values table.now) m (λ x. on_range (M.bytes memory.now).constants addr len (field_row x)) }
    ensures can { CanFollow (V.values table.now) result }
{
    let _map = operand(table, m)?;
    let key = range(memory, addr, len)?;
    Ok(part_under(table, m, key))
}

/// Helper 6: whether a map has a key in the constants.
#[tactic(auto, using(crate::proofs::Seeing::by_lent, value_store::proofs::Places::has_key_place), unfolding(crate::specs::Lookups::has_row))]
pub(crate) fn has<V: ValueStore, M: Regions>(
    table: &V,
    memory: &M,
    m: u64,
    addr: u64,
    len: u64,
) -> Result<HelperEffect<'static>, Fault>
    ensures means { means (V.values table.now) result ≡ on_value (V.values table.now) m (λ x. on_range (M.bytes memory.now).constants addr len (has_row x)) }
    ensures can { CanFollow (V.values table.now) result }
{
    let _shape = operand(table, m)?;
    let key = range(memory, addr, len)?;
    if is_map(table, m) {
        return Ok(HelperEffect::truth(Some(table.find(m, key).is_some())));
    }
    Ok(HelperEffect::truth(None))
}

/// A list's item at a position, to be placed.
#[tactic(auto, using(crate::proofs::Maps::item_there, std::proofs::lemmas::Option::slice_get_past))]
fn item_plan(l: u64, count: u64, place: Option<u64>) -> HelperEffect<'static>
    ensures means { (vs : List ValueOrError)
        → option_map outcome_view (slice_get vs l) ≡ Some (sees_list count)
        → outcome_by vs result.placement result.added ≡ found (option_and_then (part_at (slice_get vs l)) place) }
    ensures can { (vs : List ValueOrError) → option_map outcome_view (slice_get vs l) ≡ Some (sees_list count) → CanDo vs result.placement }
{
    match place {
        Some(i) if i < count => HelperEffect::free(Placement::Part(l, i)),
        _ => HelperEffect::word(0),
    }
}

/// A map's key at a position, to be placed.
#[tactic(auto, using(crate::proofs::Maps::key_there, std::proofs::lemmas::Option::slice_get_past))]
fn key_plan(m: u64, count: u64, i: u64) -> HelperEffect<'static>
    ensures means { (vs : List ValueOrError) → option_map outcome_view (slice_get vs m) ≡ Some (sees_map count) → outcome_by vs result.placement result.added ≡ found (key_at (slice_get vs m) i) }
    ensures can { (vs : List ValueOrError) → option_map outcome_view (slice_get vs m) ≡ Some (sees_map count) → CanDo vs result.placement }
{
    if i < count {
        HelperEffect::free(Placement::Key(m, i))
    } else {
        HelperEffect::word(0)
    }
}

/// Helper 7: a list's item at an int, or a map's value at a text.
#[tactic(auto, using(crate::proofs::Seeing::by_operands), unfolding(crate::specs::Lookups::index_row))]
pub(crate) fn index<V: ValueStore>(
    table: &V,
    x: u64,
    k: u64,
) -> Result<HelperEffect<'static>, Fault>
    ensures means { means (V.values table.now) result ≡ on_values (V.values table.now) x k index_row }
    ensures can { CanFollow (V.values table.now) result }
{
    let container = operand(table, x)?;
    let place = operand(table, k)?;
    match (container, place) {
        (Shape::List(count), _) => Ok(item_plan(x, count, place_part(place))),
        (Shape::Map(_), Shape::Text(key)) => Ok(part_under(table, x, key.as_bytes())),
        _ => Ok(HelperEffect::word(0)),
    }
}

/// Helper 8: the number of code points, items or entries, as an int.
#[tactic(auto, using(crate::proofs::Maps::few_code_points), unfolding(crate::specs::Lookups::size_row))]
pub(crate) fn size<V: ValueStore>(table: &V, h: u64) -> Result<HelperEffect<'static>, Fault>
    ensures means { means (V.values table.now) result ≡ on_value (V.values table.now) h size_row }
    ensures can { CanFollow (V.values table.now) result }
{
    match operand(table, h)? {
        Shape::Text(text) => Ok(HelperEffect::int(code_points(text.as_bytes()) as i64)),
        Shape::List(count) => Ok(HelperEffect::int(count as i64)),
        Shape::Map(count) => Ok(HelperEffect::int(count as i64)),
        _ => Ok(HelperEffect::word(0)),
    }
}

/// Helper 20: a list's item, or a map's key, at a position.
#[tactic(auto, unfolding(crate::specs::Lookups::item_row))]
pub(crate) fn item<V: ValueStore>(table: &V, h: u64, i: u64) -> Result<HelperEffect<'static>, Fault>
    ensures means { means (V.values table.now) result ≡ on_value (V.values table.now) h (λ x. item_row x i) }
    ensures can { CanFollow (V.values table.now) result }
{
    match operand(table, h)? {
        Shape::List(count) => Ok(item_plan(h, count, Some(i))),
        Shape::Map(count) => Ok(key_plan(h, count, i)),
        _ => Ok(HelperEffect::word(0)),
    }
}

/// Helper 21: the number of items or entries, as a word.
#[tactic(auto, unfolding(crate::specs::Lookups::count_row))]
pub(crate) fn count<V: ValueStore>(table: &V, h: u64) -> Result<HelperEffect<'static>, Fault>
    ensures means { means (V.values table.now) result ≡ on_value (V.values table.now) h count_row }
    ensures can { CanFollow (V.values table.now) result }
{
    match operand(table, h)? {
        Shape::List(count) => Ok(HelperEffect::word(count)),
        Shape::Map(count) => Ok(HelperEffect::word(count)),
        _ => Ok(HelperEffect::word(u64::MAX)),
    }
}
