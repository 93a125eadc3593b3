//! Items in brackets.

ghost use Rattle.std.specs.Prelude.{◌≡◌, ◌≤◌, ◌<◌, ◌+◌, ◌^◌, length, IfSome};
ghost use Rattle.pattern_reader.specs.Brackets as brackets;

use crate::escape::{escape_of, set_of};
use crate::item::Item;
use crate::point::{begins_with, tail, word_len};
use crate::set::Set;

/// The set with this name.
fn set_named(name: &[char]) -> Option<Set>
    ensures { result ≡ brackets.set_named name.now }
{
    if name == ['a', 'l', 'n', 'u', 'm'].as_slice() {
        Some(Set::Alnum)
    } else if name == ['a', 'l', 'p', 'h', 'a'].as_slice() {
        Some(Set::Alpha)
    } else if name == ['a', 's', 'c', 'i', 'i'].as_slice() {
        Some(Set::Ascii)
    } else if name == ['b', 'l', 'a', 'n', 'k'].as_slice() {
        Some(Set::Blank)
    } else if name == ['c', 'n', 't', 'r', 'l'].as_slice() {
        Some(Set::Cntrl)
    } else if name == ['d', 'i', 'g', 'i', 't'].as_slice() {
        Some(Set::Digit)
    } else if name == ['g', 'r', 'a', 'p', 'h'].as_slice() {
        Some(Set::Graph)
    } else if name == ['l', 'o', 'w', 'e', 'r'].as_slice() {
        Some(Set::Lower)
    } else if name == ['p', 'r', 'i', 'n', 't'].as_slice() {
        Some(Set::Print)
    } else if name == ['p', 'u', 'n', 'c', 't'].as_slice() {
        Some(Set::Punct)
    } else if name == ['s', 'p', 'a', 'c', 'e'].as_slice() {
        Some(Set::Space)
    } else if name == ['u', 'p', 'p', 'e', 'r'].as_slice() {
        Some(Set::Upper)
    } else if name == ['w', 'o', 'r', 'd'].as_slice() {
        Some(Set::Word)
    } else if name == ['x', 'd', 'i', 'g', 'i', 't'].as_slice() {
        Some(Set::Xdigit)
    } else {
        None
    }
}

/// Whether `:]` is at the front.
fn ends_name(points: &[char]) -> bool
    ensures { result ≡ brackets.ends_name points.now }
{
    matches!(points, [':', ']', ..])
}

/// The named set after `[`, with its length.
fn named_at(points: &[char]) -> Option<(Item, usize)>
    requires { length points.now < 2 ^ 60 }
    ensures value { result ≡ brackets.named_at points.now }
    ensures within { IfSome result (λ x. (1 ≤ x.1) × (x.1 ≤ length points.now + 1)) }
{
    let [':', rest @ ..] = points else {
        return None;
    };
    let len = word_len(rest);
    if !ends_name(tail(rest, len)) {
        return None;
    }
    let set = set_named(&rest[..len])?;
    Some((Item::Member(set), len + 4))
}

/// Whether the code point has to be escaped before these.
fn is_reserved(c: char, points: &[char]) -> bool
    ensures { result ≡ brackets.is_reserved c points.now }
{
    c == '[' || c == ']' || c == '-' || ((c == '&' || c == '~') && begins_with(points, c))
}

/// The code point at the front, with its length.
fn point_at(points: &[char]) -> Option<(char, usize)>
    ensures value { result ≡ brackets.point_at points.now }
    ensures within { IfSome result (λ x. (1 ≤ x.1) × (x.1 ≤ length points.now) × (x.1 ≤ 2)) }
{
    match points {
        ['\\', c, ..] => Some((escape_of(*c)?, 2)),
        ['\\'] | [] => None,
        [c, rest @ ..] if is_reserved(*c, rest) => None,
        [c, ..] => Some((*c, 1)),
    }
}

/// Whether a `-` and another code point than `]` are at the front.
fn goes_on(points: &[char]) -> bool
    ensures value { result ≡ brackets.goes_on points.now }
{
    match points {
        ['-', second, ..] => *second != ']',
        _ => false,
    }
}

/// The range from this code point, of this length, to the code point at the front.
fn range_to(low: char, len: usize, points: &[char]) -> Option<(Item, usize)>
    requires { len ≤ 2 }
    ensures value { result ≡ brackets.range_to low len (brackets.point_at points.now) }
    ensures within { IfSome result (λ x. (1 ≤ x.1) × (x.1 ≤ length points.now + len + 1)) }
{
    let (high, more) = point_at(points)?;
    if low <= high {
        Some((Item::Range(low, high), len + more + 1))
    } else {
        None
    }
}

/// The code point or range at the front, with its length.
fn range_at(points: &[char]) -> Option<(Item, usize)>
    ensures value { result ≡ brackets.range_at points.now }
    ensures within { IfSome result (λ x. (1 ≤ x.1) × (x.1 ≤ length points.now)) }
{
    let (low, len) = point_at(points)?;
    let rest = tail(points, len);
    if goes_on(rest) {
        range_to(low, len, tail(points, len + 1))
    } else {
        Some((Item::Range(low, low), len))
    }
}

/// The set that a backslash and a letter at the front are.
fn escaped_set(points: &[char]) -> Option<Set>
    ensures value { result ≡ brackets.escaped_set points.now }
    ensures within { IfSome result (λ _. 2 ≤ length points.now) }
{
    match points {
        ['\\', c, ..] => set_of(*c),
        _ => None,
    }
}

/// Whether a `-` before these is a code point.
fn is_dash(first: bool, points: &[char]) -> bool
    ensures { result ≡ brackets.is_dash first points.now }
{
    (first || begins_with(points, ']')) && !begins_with(points, '-')
}

/// The item at the front, in brackets, with its length. `first`: right after they open.
pub fn part_at(first: bool, points: &[char]) -> Option<(Item, usize)>
    requires { length points.now < 2 ^ 60 }
    ensures value { result ≡ brackets.part_at first points.now }
    ensures within { IfSome result (λ x. (1 ≤ x.1) × (x.1 ≤ length points.now)) }
{
    match points {
        [] => None,
        [']', ..] if first => None,
        [']', ..] => Some((Item::CloseBracket, 1)),
        ['[', rest @ ..] => named_at(rest),
        ['-', rest @ ..] if is_dash(first, rest) => Some((Item::Range('-', '-'), 1)),
        ['-', ..] => None,
        _ => match escaped_set(points) {
            Some(set) => Some((Item::Member(set), 2)),
            None => range_at(points),
        },
    }
}
