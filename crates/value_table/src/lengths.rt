//! Lengths of JSON texts in bytes, each capped at 2^64 - 1.

ghost use Rattle.std.specs.Prelude.{◌≡◌, ◌≤◌, ◌+◌, ◌-◌, length, decimal};
ghost use Rattle.std.specs.Fmt.{signed_decimal};
ghost use Rattle.value_store.specs.Plain.{saturated};
ghost use Rattle.value_table.specs.Lengths.{commas};

// The number of commas between `count` items and `more` items that follow them.
fn commas(count: u64, more: u64) -> u64
    ensures { result ≡ commas count more }
{
    if count == 0 || more == 0 { 0 } else { 1 }
}

/// The length of a list's text after an item is appended to `count` others.
pub(crate) fn pushed_length(list: u64, count: u64, item: u64) -> u64
    ensures { result ≡ saturated (list + commas count 1 + item) }
{
    list.saturating_add(commas(count, 1)).saturating_add(item)
}

/// The length of the text of two joined lists with `count` and `more` items. Two brackets are
/// dropped.
pub(crate) fn joined_length(first: u64, count: u64, second: u64, more: u64) -> u64
    requires { 2 ≤ second }
    ensures { result ≡ saturated (first + commas count more + (second - 2)) }
{
    first
        .saturating_add(commas(count, more))
        .saturating_add(second - 2)
}

/// The length of a map's text after an entry is added to `count` others.
pub(crate) fn put_length(map: u64, count: u64, key: u64, value: u64) -> u64
    ensures { result ≡ saturated (map + (1 + commas count 1) + key + value) }
{
    map.saturating_add(1 + commas(count, 1))
        .saturating_add(key)
        .saturating_add(value)
}

/// The length of an int in decimal, with its sign.
pub(crate) fn int_length(n: i64) -> u64
    ensures { result ≡ length (signed_decimal n) }
{
    if n < 0 {
        return 1 + digits(n.unsigned_abs());
    }
    digits(n.unsigned_abs())
}

fn digits(n: u64) -> u64
    ensures count { result ≡ length (decimal n) }
    ensures short { result ≤ 20 }
{
    let mut count = 1u64;
    let mut rest = n / 10;
    while rest > 0 {
        rest /= 10;
        count = count.saturating_add(1);
    }
    count
}
