//! What a call reads, computed before it from what the store knows of its operands: no value is walked.

ghost use Rattle.std.specs.Prelude.{◌≡◌, ◌≤◌, ◌+◌, ◌^◌, length, option_map, slice_get};
ghost use Rattle.helper_table.specs.Calls.{bytes_at};
ghost use Rattle.helper_table.specs.Reads.{are_alike, contains_reads, digits_of, end_reads, equal_reads, index_reads, items_reads, join_reads, key_reads, less_reads, member_reads, on_both, put_reads, reads_by, reads_of, search_reads, seen_at, size_reads, text_const_reads};
ghost use Rattle.value_store.specs.Plain.{saturated};
ghost use Rattle.value_store.specs.Seen.{shape_view};

use crate::conversions::kind_number;
use crate::helper::Helper;
use crate::operands::{is_value, operand, range};
use guest_memory::Regions;
use value_store::{Shape, ValueStore};

/// What the call of helper `id` reads with the words of R1 to R5: up to a small factor a bound of the bytes that it
/// touches, or the greatest word, if that is less. The call is not made.
pub fn reads<V: ValueStore, M: Regions>(id: i32, args: [u64; 5], table: &V, memory: &M) -> u64
    ensures { result ≡ saturated (reads_of id args (V.values table.now) (M.bytes memory.now).constants) }
{
    match Helper::of_number(id) {
        Some(helper) => reads_by(helper, args, table, memory),
        None => 0,
    }
}

#[tactic(auto, unfolding(crate::specs::Reads::reads_by))]
fn reads_by<V: ValueStore, M: Regions>(helper: Helper, args: [u64; 5], table: &V, memory: &M) -> u64
    ensures { result ≡ saturated (reads_by helper args (V.values table.now) (M.bytes memory.now).constants) }
{
    let [a, b, c, _, _] = args;
    match helper {
        Helper::TextConst => text_const(memory, a, b),
        Helper::Field | Helper::Has => under(table, memory, a, b, c),
        Helper::Index => index(table.at(a), table.at(b)),
        Helper::Size => size(table.at(a)),
        Helper::Equal => equal(table, a, b),
        Helper::Less => less(table.at(a), table.at(b)),
        Helper::Join => join(table.at(a), table.at(b)),
        Helper::Starts | Helper::Ends => end(table.at(a), table.at(b)),
        Helper::Contains => contains(table.at(a), table.at(b)),
        Helper::Member => member(table, a, b),
        Helper::Put => put(table.at(a), table.at(b), table.at(c)),
        _ => 0,
    }
}

#[tactic(auto, unfolding(crate::specs::Reads::text_const_reads))]
fn text_const<M: Regions>(memory: &M, addr: u64, len: u64) -> u64
    ensures { result ≡ saturated (text_const_reads (bytes_at (M.bytes memory.now).constants addr len)) }
{
    match range(memory, addr, len) {
        Ok(bytes) => bytes.len() as u64,
        Err(_) => 0,
    }
}

/// The number of binary digits of a word.
fn digits_of(n: u64) -> u64
    ensures { result ≡ digits_of n }
{
    64u64.saturating_sub(u64::from(n.leading_zeros()))
}

/// A search for a key among the entries of a map.
fn search(key: &[u8], count: u64) -> u64
    ensures { result ≡ saturated (search_reads key.now count) }
{
    (key.len() as u64).saturating_mul(digits_of(count))
}

/// Helpers 5 and 6.
#[tactic(auto, unfolding(crate::specs::Reads::key_reads))]
fn under<V: ValueStore, M: Regions>(table: &V, memory: &M, m: u64, addr: u64, len: u64) -> u64
    ensures { result ≡ saturated (key_reads (seen_at (V.values table.now) m) (bytes_at (M.bytes memory.now).constants addr len)) }
{
    match (table.at(m), range(memory, addr, len)) {
        (Some(Shape::Map(count)), Ok(key)) => search(key, count),
        _ => 0,
    }
}

#[tactic(auto, unfolding(crate::specs::Reads::index_reads))]
fn index(container: Option<Shape<'_>>, place: Option<Shape<'_>>) -> u64
    ensures { result ≡ saturated (index_reads (option_map shape_view container.entry) (option_map shape_view place.entry)) }
{
    match (container, place) {
        (Some(Shape::Map(count)), Some(Shape::Text(key))) => search(key.as_bytes(), count),
        _ => 0,
    }
}

#[tactic(auto, unfolding(crate::specs::Reads::size_reads))]
fn size(shape: Option<Shape<'_>>) -> u64
    ensures { result ≡ saturated (size_reads (option_map shape_view shape.entry)) }
{
    match shape {
        Some(Shape::Text(text)) => text.len() as u64,
        _ => 0,
    }
}

/// Whether these are two values of one kind.
fn are_alike(x: Shape<'_>, y: Shape<'_>) -> bool
    ensures { result ≡ are_alike (shape_view x.entry) (shape_view y.entry) }
{
    is_value(x) && kind_number(x) == kind_number(y)
}

#[tactic(auto, using(crate::proofs::Reading::by_lengths), unfolding(crate::specs::Reads::equal_reads))]
fn equal<V: ValueStore>(table: &V, a: u64, b: u64) -> u64
    ensures { result ≡ saturated (on_both equal_reads (slice_get (V.values table.now) a) (slice_get (V.values table.now) b)) }
{
    let Ok(x) = operand(table, a) else {
        return 0;
    };
    let Ok(y) = operand(table, b) else {
        return 0;
    };
    let (m, n) = (table.json_length(a), table.json_length(b));
    if are_alike(x, y) && m == n { m } else { 0 }
}

#[tactic(auto, unfolding(crate::specs::Reads::less_reads))]
fn less(x: Option<Shape<'_>>, y: Option<Shape<'_>>) -> u64
    ensures { result ≡ saturated (less_reads (option_map shape_view x.entry) (option_map shape_view y.entry)) }
{
    match (x, y) {
        (Some(Shape::Text(s)), Some(Shape::Text(t))) => (s.len() as u64).min(t.len() as u64),
        _ => 0,
    }
}

#[tactic(auto, unfolding(crate::specs::Reads::join_reads))]
fn join(x: Option<Shape<'_>>, y: Option<Shape<'_>>) -> u64
    ensures { result ≡ saturated (join_reads (option_map shape_view x.entry) (option_map shape_view y.entry)) }
{
    match (x, y) {
        (Some(Shape::Text(s)), Some(Shape::Text(t))) => (s.len() as u64).saturating_add(
            t.len() as u64,
        ),
        (Some(Shape::List(m)), Some(Shape::List(n))) => m.saturating_add(n),
        _ => 0,
    }
}

/// Helpers 12 and 13.
#[tactic(auto, unfolding(crate::specs::Reads::end_reads))]
fn end(text: Option<Shape<'_>>, part: Option<Shape<'_>>) -> u64
    ensures { result ≡ saturated (end_reads (option_map shape_view text.entry) (option_map shape_view part.entry)) }
{
    match (text, part) {
        (Some(Shape::Text(s)), Some(Shape::Text(t))) if t.len() <= s.len() => t.len() as u64,
        _ => 0,
    }
}

#[tactic(auto, unfolding(crate::specs::Reads::contains_reads))]
fn contains(text: Option<Shape<'_>>, part: Option<Shape<'_>>) -> u64
    ensures { result ≡ saturated (contains_reads (option_map shape_view text.entry) (option_map shape_view part.entry)) }
{
    match (text, part) {
        (Some(Shape::Text(s)), Some(Shape::Text(t))) if t.len() <= s.len() => {
            (s.len() as u64).saturating_add(t.len() as u64)
        }
        _ => 0,
    }
}

/// A value of `length` bytes of JSON among the items of a list of `total` bytes.
fn items_reads(count: u64, total: u64, length: u64) -> u64
    requires { length ≤ 2 ^ 62 }
    ensures { result ≡ saturated (items_reads count total length) }
{
    let by_items = count.saturating_mul(8 + length);
    total.saturating_add(length).min(by_items)
}

#[tactic(auto, using(crate::proofs::Reading::by_lengths, crate::proofs::Reading::length_held), unfolding(crate::specs::Reads::member_reads))]
fn member<V: ValueStore>(table: &V, x: u64, c: u64) -> u64
    ensures { result ≡ saturated (on_both member_reads (slice_get (V.values table.now) x) (slice_get (V.values table.now) c)) }
{
    let Ok(item) = operand(table, x) else {
        return 0;
    };
    let Ok(container) = operand(table, c) else {
        return 0;
    };
    let (length, total) = (table.json_length(x), table.json_length(c));
    match (item, container) {
        (_, Shape::List(count)) if is_value(item) => items_reads(count, total, length),
        (Shape::Text(key), Shape::Map(count)) => search(key.as_bytes(), count),
        _ => 0,
    }
}

#[tactic(auto, unfolding(crate::specs::Reads::put_reads))]
fn put(map: Option<Shape<'_>>, key: Option<Shape<'_>>, value: Option<Shape<'_>>) -> u64
    ensures { result ≡ saturated (put_reads (option_map shape_view map.entry) (option_map shape_view key.entry) (option_map shape_view value.entry)) }
{
    match (map, key, value) {
        (Some(Shape::Map(count)), Some(Shape::Text(key)), Some(_)) => {
            count.saturating_add(search(key.as_bytes(), count))
        }
        _ => 0,
    }
}
