//! The counts of repetitions.

ghost use Rattle.std.specs.Prelude.{◌≡◌, ◌≤◌, ◌<◌, ◌+◌, ◌-◌, ◌^◌, length, IfSome};
ghost use Rattle.pattern_reader.specs.Counts as counts;

use crate::point::{begins_with, digits_len, tail};
use crate::repeat::Repeat;

/// The smallest and the greatest number of times, and the number of code points that they are written with.
type Counts = (u32, Option<u32>, usize);

/// The value of a digit.
fn digit(c: char) -> u64
    ensures value { result ≡ c - 48 }
    ensures small { result < 2 ^ 32 }
{
    (c as u64).saturating_sub(48)
}

/// The number that at most four digits denote.
fn value(digits: &[char]) -> u64
    ensures { result ≡ counts.value digits.now }
{
    match digits {
        [] => 0,
        [a] => digit(*a),
        [a, b] => digit(*a) * 10 + digit(*b),
        [a, b, c] => digit(*a) * 100 + digit(*b) * 10 + digit(*c),
        [a, b, c, d, ..] => digit(*a) * 1000 + digit(*b) * 100 + digit(*c) * 10 + digit(*d),
    }
}

/// The count that these digits are, with their number.
fn count_of(digits: &[char]) -> Option<(u32, usize)>
    ensures value { result ≡ counts.count_of digits.now }
    ensures within { IfSome result (λ x. (1 ≤ x.1) × (x.1 ≤ length digits.now)) }
{
    let len = digits.len();
    let value = value(digits);
    if 1 <= len && len <= 4 && (len == 1 || !begins_with(digits, '0')) && value <= 1000 {
        Some((value as u32, len))
    } else {
        None
    }
}

/// The count at the front, with the number of its digits.
fn count_at(points: &[char]) -> Option<(u32, usize)>
    ensures value { result ≡ counts.count_at points.now }
    ensures within { IfSome result (λ x. (1 ≤ x.1) × (x.1 ≤ length points.now)) }
{
    count_of(&points[..digits_len(points)])
}

/// The second count after the comma, or the end of the braces.
fn up_to(min: u32, len: usize, points: &[char]) -> Option<Counts>
    requires { len + length points.now < 2 ^ 60 }
    ensures value { result ≡ counts.up_to min len points.now (counts.count_at points.now) }
    ensures within { IfSome result (λ x. (1 ≤ x.2) × (x.2 ≤ len + length points.now + 2)) }
{
    match count_at(points) {
        None if begins_with(points, '}') => Some((min, None, len + 3)),
        Some((max, more)) if min <= max && begins_with(tail(points, more), '}') => Some((
            min,
            Some(max),
            len + more + 3,
        )),
        _ => None,
    }
}

/// The counts after `{`.
fn braces(points: &[char]) -> Option<Counts>
    requires { length points.now < 2 ^ 60 }
    ensures value { result ≡ counts.braces points.now }
    ensures within { IfSome result (λ x. (1 ≤ x.2) × (x.2 ≤ length points.now + 1)) }
{
    let (min, len) = count_at(points)?;
    let rest = tail(points, len);
    if begins_with(rest, '}') {
        Some((min, Some(min), len + 2))
    } else if begins_with(rest, ',') {
        up_to(min, len, tail(points, len + 1))
    } else {
        None
    }
}

/// The counts at the front.
fn counts_at(points: &[char]) -> Option<Counts>
    requires { length points.now < 2 ^ 60 }
    ensures value { result ≡ counts.counts_at points.now }
    ensures within { IfSome result (λ x. (1 ≤ x.2) × (x.2 ≤ length points.now)) }
{
    match points {
        ['*', ..] => Some((0, None, 1)),
        ['+', ..] => Some((1, None, 1)),
        ['?', ..] => Some((0, Some(1), 1)),
        ['{', rest @ ..] => braces(rest),
        _ => None,
    }
}

/// The repetition at the front, with its length.
pub fn repeat_at(points: &[char]) -> Option<(Repeat, usize)>
    requires { length points.now < 2 ^ 60 }
    ensures value { result ≡ counts.repeat_at points.now }
    ensures within { IfSome result (λ x. (1 ≤ x.1) × (x.1 ≤ length points.now)) }
{
    let (min, max, len) = counts_at(points)?;
    let lazy = begins_with(tail(points, len), '?');
    Some((Repeat { min, max, lazy }, if lazy { len + 1 } else { len }))
}
