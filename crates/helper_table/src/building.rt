//! The helpers that make texts, lists and maps.
ghost use Rattle.std.specs.Prelude.{◌≡◌, ◌&&◌, ◌+◌, ◌<◌, ◌^◌, List, Some, true, max, nat_le, option_map, slice_get, length, if◌then◌else◌};
ghost use Rattle.guest_memory.specs.declared.fault.Fault.TheVariants.{F8};
ghost use Rattle.helper_table.specs.Building.{sequence, depth_at, depth_limit, join_row, list_new_row, map_new_row, push_row, put_row};
ghost use Rattle.helper_table.specs.Calls.{on_value, on_values};
ghost use Rattle.helper_table.specs.Kinds.{can_join, is_list, is_value, is_new_key};
ghost use Rattle.helper_table.specs.Operands.{text_part};
ghost use Rattle.helper_table.specs.Outcome.{Plain, Refused};
ghost use Rattle.helper_table.specs.Effects.{means, CanFollow, outcome_by, CanDo};
ghost use Rattle.value_store.specs.Calls.{entries_at, joined};
ghost use Rattle.value_store.specs.Seen.{outcome_view, shape_view, seen_size};
ghost use Rattle.value_store.specs.Value.{ValueOrError};

use crate::helper_effect::HelperEffect;
use crate::operands::{is_map, is_value, operand};
use crate::placement::Placement;
use guest_memory::Fault;
use value_store::{Shape, ValueStore};

/// The maximum depth of a list or a map that is made.
const DEPTH_LIMIT: u64 = 255;

/// Whether these are two texts or two lists.
fn can_join(x: Shape<'_>, y: Shape<'_>) -> bool
    ensures { result ≡ can_join (shape_view x.entry) (shape_view y.entry) }
{
    matches!(
        (x, y),
        (Shape::Text(_), Shape::Text(_)) | (Shape::List(_), Shape::List(_))
    )
}

/// The number of bytes, items or entries.
fn size(shape: Shape<'_>) -> u64
    ensures { result ≡ seen_size (shape_view shape.entry) }
{
    match shape {
        Shape::Text(text) => text.len() as u64,
        Shape::List(count) => count,
        Shape::Map(count) => count,
        _ => 0,
    }
}

#[tactic(auto, using(crate::proofs::Pairs::joins))]
fn join_plan(a: u64, b: u64, x: Shape<'_>, y: Shape<'_>) -> HelperEffect<'static>
    requires x { seen_size (shape_view x) < 2 ^ 63 }
    requires y { seen_size (shape_view y) < 2 ^ 63 }
    ensures means { (vs : List ValueOrError)
        → option_map outcome_view (slice_get vs a) ≡ Some (shape_view x.entry)
        → option_map outcome_view (slice_get vs b) ≡ Some (shape_view y.entry)
        → outcome_by vs result.placement result.added ≡ sequence (joined (slice_get vs a) (slice_get vs b)) }
    ensures can { (vs : List ValueOrError)
        → option_map outcome_view (slice_get vs a) ≡ Some (shape_view x.entry)
        → option_map outcome_view (slice_get vs b) ≡ Some (shape_view y.entry)
        → CanDo vs result.placement }
{
    if can_join(x, y) {
        HelperEffect {
            placement: Placement::Join(a, b),
            added: size(x) + size(y),
        }
    } else {
        HelperEffect::word(0)
    }
}

/// Helper 11: the concatenation of two texts or two lists.
#[tactic(auto, unfolding(crate::specs::Building::join_row))]
pub(crate) fn join<V: ValueStore>(table: &V, a: u64, b: u64) -> Result<HelperEffect<'static>, Fault>
    ensures means { means (V.values table.now) result ≡ on_values (V.values table.now) a b join_row }
    ensures can { CanFollow (V.values table.now) result }
{
    let x = operand(table, a)?;
    let y = operand(table, b)?;
    Ok(join_plan(a, b, x, y))
}

/// Helper 16: an empty list.
#[tactic(auto, unfolding(crate::specs::Building::list_new_row))]
pub(crate) fn list_new() -> Result<HelperEffect<'static>, Fault>
    ensures means { (vs : List ValueOrError) → means vs result ≡ list_new_row }
    ensures can { (vs : List ValueOrError) → CanFollow vs result }
{
    Ok(HelperEffect::free(Placement::List))
}

/// Helper 18: an empty map.
#[tactic(auto, unfolding(crate::specs::Building::map_new_row))]
pub(crate) fn map_new() -> Result<HelperEffect<'static>, Fault>
    ensures means { (vs : List ValueOrError) → means vs result ≡ map_new_row }
    ensures can { (vs : List ValueOrError) → CanFollow vs result }
{
    Ok(HelperEffect::free(Placement::Map))
}

/// Whether a list or a map with one more value is within the depth limit.
fn is_within_depth<V: ValueStore>(table: &V, c: u64, x: u64) -> bool
    requires c { c < length (V.values table.now) }
    requires x { x < length (V.values table.now) }
    ensures { result ≡ nat_le (max (depth_at (slice_get (V.values table.now) c)) (1 + depth_at (slice_get (V.values table.now) x))) depth_limit }
{
    let (container, part) = (table.depth(c), table.depth(x));
    container <= DEPTH_LIMIT && part < DEPTH_LIMIT
}

/// Whether these are a list and a value.
fn can_push(list: Shape<'_>, item: Shape<'_>) -> bool
    ensures { result ≡ is_list (shape_view list.entry) && is_value (shape_view item.entry) }
{
    matches!(list, Shape::List(_)) && is_value(item)
}

/// The effect of adding to a list or a map, if it is possible: 1 more is charged even if nothing is added.
fn growth(
    placement: Placement<'static>,
    can_grow: bool,
    is_within: bool,
) -> Result<HelperEffect<'static>, Fault>
    ensures means { (vs : List ValueOrError) → means vs result ≡ (if can_grow then if is_within then outcome_by vs placement.entry 1 else Refused F8 else Plain 0 1) }
    ensures can { (vs : List ValueOrError) → (can_grow ≡ true → CanDo vs placement.entry) → CanFollow vs result }
{
    if !can_grow {
        return Ok(HelperEffect {
            placement: Placement::Word(0),
            added: 1,
        });
    }
    if !is_within {
        return Err(Fault::F8);
    }
    Ok(HelperEffect {
        placement,
        added: 1,
    })
}

/// Helper 17: a list with a value appended.
pub(crate) fn push<V: ValueStore>(table: &V, l: u64, x: u64) -> Result<HelperEffect<'static>, Fault>
    ensures means { means (V.values table.now) result ≡ on_values (V.values table.now) l x push_row }
    ensures can { CanFollow (V.values table.now) result }
{
    let list = operand(table, l)?;
    let item = operand(table, x)?;
    growth(
        Placement::Push(l, x),
        can_push(list, item),
        is_within_depth(table, l, x),
    )
}

/// Whether this is a text that is not yet a key of the map.
#[tactic(auto, using(value_store::proofs::Places::has_key_place))]
fn is_new_key<V: ValueStore>(table: &V, m: u64, key: Shape<'_>) -> bool
    ensures { result ≡ is_new_key (entries_at (slice_get (V.values table.now) m)) (text_part (shape_view key.entry)) }
{
    match key {
        Shape::Text(text) if is_map(table, m) => table.find(m, text.as_bytes()).is_none(),
        _ => false,
    }
}

/// Whether these are a map, a text that is not yet one of its keys, and a value.
fn can_put<V: ValueStore>(table: &V, m: u64, key: Shape<'_>, value: Shape<'_>) -> bool
    ensures { result ≡ is_new_key (entries_at (slice_get (V.values table.now) m)) (text_part (shape_view key.entry)) && is_value (shape_view value.entry) }
{
    is_new_key(table, m, key) && is_value(value)
}

/// Helper 19: a map with one more entry, whose key is a text that the map does not have yet.
pub(crate) fn put<V: ValueStore>(
    table: &V,
    m: u64,
    k: u64,
    x: u64,
) -> Result<HelperEffect<'static>, Fault>
    ensures means { means (V.values table.now) result ≡ on_value (V.values table.now) m (λ map. on_values (V.values table.now) k x (put_row map)) }
    ensures can { CanFollow (V.values table.now) result }
{
    let _map = operand(table, m)?;
    let key = operand(table, k)?;
    let value = operand(table, x)?;
    growth(
        Placement::Put(m, k, x),
        can_put(table, m, key, value),
        is_within_depth(table, m, x),
    )
}
