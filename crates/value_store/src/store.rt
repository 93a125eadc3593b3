//! The values of a machine: the calls of a store.

ghost use Rattle.std.specs.Prelude.{◌≡◌, ◌≤◌, ◌<◌, ◌+◌, ◌^◌, ℕ, List, ◌++◌, length, Option, Some, slice_get, option_map, string_bytes, IsSome, IfSome, IfOk};
ghost use Rattle.value_store.specs.Value.{ValueOrError, int, text, list, map, no_items, no_entries};
ghost use Rattle.value_store.specs.Size.{result_depth};
ghost use Rattle.value_store.specs.Placing.{first_values, charge_limit};
ghost use Rattle.value_store.specs.Json.{json_length, shown_text};
ghost use Rattle.value_store.specs.Keys.{AreOrdered};
ghost use Rattle.value_store.specs.Calls.{Places, text_at, equal_at, less_at, member_at, find_at, part_at, key_at, joined, pushed, put_in};
ghost use Rattle.value_store.specs.Seen.{outcome_view, shape_view, seen_size};

use crate::shape::Shape;
use std::alloc::AllocError;

/// Values in a list, each referred to by its index, a reference. The first four are the error, null, false
/// and true. A value never changes and is never removed. A call that places a value returns the fixed
/// reference of null, false or true, and appends any other value. If the allocation for an appended value
/// fails, the call returns `AllocError` and the store is unchanged.
pub trait ValueStore: Drop {
    /// The value at each reference.
    ghost values: { Self → List ValueOrError };

    /// The charge so far: the sizes of the roots at the start, plus what was spent since.
    ghost charge: { Self → ℕ };

    /// The number of references. The first four are the error, null, false and true, and the keys of every map
    /// in the store are in byte order without duplicates.
    fn len(&self) -> u64
        ensures count { result ≡ length (values self.now) }
        ensures first { (more : List ValueOrError) × (values self.now ≡ first_values ++ more) }
        ensures ordered { AreOrdered (values self.now) };

    /// The charge so far.
    fn charge(&self) -> u64
        ensures value { result ≡ charge self.now }
        ensures limit { result ≤ charge_limit };

    /// Adds `n` to the charge.
    fn spend(&mut self, n: u64)
        requires { charge self.old + n ≤ charge_limit }
        ensures charge { charge self.new ≡ charge self.old + n }
        ensures values { values self.new ≡ values self.old };

    /// The outline of the value at a reference, if the reference is valid. A text has fewer than 2^63
    /// bytes, a list fewer items and a map fewer entries.
    fn at(&self, h: u64) -> Option<Shape<'_>>
        ensures shape { option_map shape_view result ≡ option_map outcome_view (slice_get (values self.now) h) }
        ensures short { IfSome result (λ s. seen_size (shape_view s) < 2 ^ 63) };

    /// The text at a reference, if there is one.
    fn text(&self, h: u64) -> Option<&str>
        ensures { option_map (λ t. t.now) result ≡ text_at (slice_get (values self.now) h) };

    /// The depth of the value at a reference: 1 more than its deepest part, 1 for an
    /// empty list or map, and 0 for anything else.
    fn depth(&self, h: u64) -> u64
        requires { h < length (values self.now) }
        ensures { Some result ≡ option_map result_depth (slice_get (values self.now) h) };

    /// Whether two values are deeply equal. Takes no memory.
    fn equal(&mut self, a: u64, b: u64) -> bool
        requires { IsSome (equal_at (slice_get (values self.old) a) (slice_get (values self.old) b)) }
        ensures answer { Some result ≡ equal_at (slice_get (values self.old) a) (slice_get (values self.old) b) }
        ensures values { values self.new ≡ values self.old }
        ensures charge { charge self.new ≡ charge self.old };

    /// Whether the first of two ints, texts or bools is less than the second: texts
    /// by code points, false less than true.
    fn less(&self, a: u64, b: u64) -> bool
        requires { IsSome (less_at (slice_get (values self.now) a) (slice_get (values self.now) b)) }
        ensures { Some result ≡ less_at (slice_get (values self.now) a) (slice_get (values self.now) b) };

    /// Whether an item of the list `c` equals the value `x`, or the map `c` has the text `x` as a key. Takes no
    /// memory.
    fn member(&mut self, x: u64, c: u64) -> bool
        requires { IsSome (member_at (slice_get (values self.old) x) (slice_get (values self.old) c)) }
        ensures answer { Some result ≡ member_at (slice_get (values self.old) x) (slice_get (values self.old) c) }
        ensures values { values self.new ≡ values self.old }
        ensures charge { charge self.new ≡ charge self.old };

    /// The position of a key in the map `m`, if the map has it. Bytes that are not UTF-8 are a key of no map.
    fn find(&self, m: u64, key: &[u8]) -> Option<u64>
        requires { IsSome (find_at (slice_get (values self.now) m) key.now) }
        ensures { Some result ≡ find_at (slice_get (values self.now) m) key.now };

    /// The value at a reference as JSON (RFC 8259), compact and with the keys in byte order; `error` for the error.
    fn json(&self, h: u64) -> Result<String, AllocError>
        requires { h < length (values self.now) }
        ensures { IfOk result (λ s. Some (string_bytes s) ≡ option_map shown_text (slice_get (values self.now) h)) };

    /// The length in bytes of the text that `json` gives, at most 2^62. Takes no memory.
    fn json_length(&self, h: u64) -> u64
        requires { h < length (values self.now) }
        ensures { Some result ≡ option_map json_length (slice_get (values self.now) h) };

    /// Places an int.
    fn place_int(&mut self, n: i64) -> Result<u64, AllocError>
        ensures placed { Places (values self.old) (int n) result (values self.new) }
        ensures charge { charge self.new ≡ charge self.old };

    /// Places a text.
    fn place_text(&mut self, s: &str) -> Result<u64, AllocError>
        ensures placed { Places (values self.old) (text s.now) result (values self.new) }
        ensures charge { charge self.new ≡ charge self.old };

    /// Places the i-th item of a list, or the value of a map's i-th entry.
    fn alias(&mut self, h: u64, i: u64) -> Result<u64, AllocError>
        requires { IsSome (part_at (slice_get (values self.old) h) i) }
        ensures placed { IfSome (part_at (slice_get (values self.old) h) i) (λ v. Places (values self.old) v result (values self.new)) }
        ensures charge { charge self.new ≡ charge self.old };

    /// Places the key of a map's i-th entry, a text.
    fn alias_key(&mut self, h: u64, i: u64) -> Result<u64, AllocError>
        requires { IsSome (key_at (slice_get (values self.old) h) i) }
        ensures placed { IfSome (key_at (slice_get (values self.old) h) i) (λ v. Places (values self.old) v result (values self.new)) }
        ensures charge { charge self.new ≡ charge self.old };

    /// Places the text, or the list, that is `a` followed by `b`.
    fn join(&mut self, a: u64, b: u64) -> Result<u64, AllocError>
        requires { IsSome (joined (slice_get (values self.old) a) (slice_get (values self.old) b)) }
        ensures placed { IfSome (joined (slice_get (values self.old) a) (slice_get (values self.old) b)) (λ v. Places (values self.old) v result (values self.new)) }
        ensures charge { charge self.new ≡ charge self.old };

    /// Places an empty list.
    fn new_list(&mut self) -> Result<u64, AllocError>
        ensures placed { Places (values self.old) (list no_items) result (values self.new) }
        ensures charge { charge self.new ≡ charge self.old };

    /// Places an empty map.
    fn new_map(&mut self) -> Result<u64, AllocError>
        ensures placed { Places (values self.old) (map no_entries) result (values self.new) }
        ensures charge { charge self.new ≡ charge self.old };

    /// Places the list `l` with the value `x` appended.
    fn push(&mut self, l: u64, x: u64) -> Result<u64, AllocError>
        requires { IsSome (pushed (slice_get (values self.old) l) (slice_get (values self.old) x)) }
        ensures placed { IfSome (pushed (slice_get (values self.old) l) (slice_get (values self.old) x)) (λ v. Places (values self.old) v result (values self.new)) }
        ensures charge { charge self.new ≡ charge self.old };

    /// Places the map `m` with one more entry, the value `x` under the text `k`, which must not be a key of `m` yet.
    fn put(&mut self, m: u64, k: u64, x: u64) -> Result<u64, AllocError>
        requires { IsSome (put_in (slice_get (values self.old) m) (slice_get (values self.old) k) (slice_get (values self.old) x)) }
        ensures placed { IfSome (put_in (slice_get (values self.old) m) (slice_get (values self.old) k) (slice_get (values self.old) x)) (λ v. Places (values self.old) v result (values self.new)) }
        ensures charge { charge self.new ≡ charge self.old };

    /// Makes an equal store that shares nothing with this one.
    fn copy(&self) -> Result<Self, AllocError>
        ensures values { IfOk result (λ copy. values copy ≡ values self.now) }
        ensures charge { IfOk result (λ copy. charge copy ≡ charge self.now) };
}
