//! Openings of groups.

ghost use Rattle.std.specs.Prelude.{◌≡◌, ◌≤◌, ◌<◌, ◌+◌, ◌^◌, length, IfSome};
ghost use Rattle.pattern_reader.specs.Openings as openings;

use crate::point::{begins_with, tail, word_len};

/// The length of a name and its end, with the `before` code points before it.
fn name_end(before: usize, points: &[char]) -> Option<usize>
    requires { length points.now + before < 2 ^ 60 }
    ensures value { result ≡ openings.name_end before points.now }
    ensures within { IfSome result (λ n. (1 ≤ n) × (n + 1 ≤ length points.now + before)) }
{
    let len = word_len(points);
    if len >= 1 && begins_with(tail(points, len), '>') {
        Some(len + before)
    } else {
        None
    }
}

/// The length of an opening after `(?P`.
fn python_open(points: &[char]) -> Option<usize>
    requires { length points.now < 2 ^ 59 }
    ensures value { result ≡ openings.python_open points.now }
    ensures within { IfSome result (λ n. (1 ≤ n) × (n ≤ length points.now + 3)) }
{
    match points {
        ['<', rest @ ..] => name_end(5, rest),
        _ => None,
    }
}

/// The length of an opening after `(?`.
fn marked_open(points: &[char]) -> Option<usize>
    requires { length points.now < 2 ^ 59 }
    ensures value { result ≡ openings.marked_open points.now }
    ensures within { IfSome result (λ n. (1 ≤ n) × (n ≤ length points.now + 2)) }
{
    match points {
        [':', ..] => Some(3),
        ['<', rest @ ..] => name_end(4, rest),
        ['P', rest @ ..] => python_open(rest),
        _ => None,
    }
}

/// The length of an opening after `(`.
pub fn open_len(points: &[char]) -> Option<usize>
    requires { length points.now < 2 ^ 59 }
    ensures value { result ≡ openings.open_len points.now }
    ensures within { IfSome result (λ n. (1 ≤ n) × (n ≤ length points.now + 1)) }
{
    match points {
        ['?', rest @ ..] => marked_open(rest),
        _ => Some(1),
    }
}
