//! Appends to vectors within their reserved capacity.

ghost use Rattle.std.specs.Prelude.{◌≡◌, ◌≤◌, ◌+◌, ◌-◌, ◌++◌, length, vec_len, vec_capacity, slice_range};

/// Appends a copy of the items in this range.
pub(crate) fn repeat<T: Copy>(items: &mut Vec<T>, from: usize, to: usize)
    requires order { from ≤ to }
    requires inside { to ≤ length items.old.items }
    requires room { vec_len items.old + (to - from) ≤ vec_capacity items.old }
    ensures items { items.new.items ≡ items.old.items ++ slice_range items.old.items from to }
    ensures len { vec_len items.new ≡ vec_len items.old + (to - from) }
    ensures capacity { vec_capacity items.new ≡ vec_capacity items.old }
{
    for place in from..to {
        let item = items[place];
        items.push_reserved(item);
    }
}
