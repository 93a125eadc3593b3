//! The item at the front of a pattern.

ghost use Rattle.std.specs.Prelude.{◌≡◌, ◌≤◌, ◌<◌, ◌+◌, ◌^◌, length, IfSome};
ghost use Rattle.pattern_reader.specs.Counts as counts;
ghost use Rattle.pattern_reader.specs.Openings as openings;
ghost use Rattle.pattern_reader.specs.Items as items;

use crate::bracket::part_at;
use crate::count::repeat_at;
use crate::escape::escaped;
use crate::item::Item;
use crate::opening::open_len;
use crate::place::Place;
use crate::point::begins_with;

/// The item that a single code point is.
fn single(c: char) -> Item
    ensures { result ≡ items.single c }
{
    match c {
        '.' => Item::Any,
        '^' => Item::Start,
        '$' => Item::End,
        '|' => Item::Bar,
        ')' => Item::Close,
        _ => Item::Literal(c),
    }
}

/// The item after a backslash.
fn after_backslash(points: &[char]) -> Option<(Item, usize)>
    ensures value { result ≡ items.after_backslash points.now }
    ensures within { IfSome result (λ x. (x.1 ≡ 2) × (1 ≤ length points.now)) }
{
    match points {
        [c, ..] => Some((escaped(*c)?, 2)),
        [] => None,
    }
}

/// The opening of a group.
fn opening(points: &[char]) -> Option<(Item, usize)>
    requires { length points.now < 2 ^ 59 }
    ensures value { result ≡ items.opening (openings.open_len points.now) }
    ensures within { IfSome result (λ x. (1 ≤ x.1) × (x.1 ≤ length points.now + 1)) }
{
    Some((Item::Open, open_len(points)?))
}

/// The repetition at the front.
fn repetition(points: &[char]) -> Option<(Item, usize)>
    requires { length points.now < 2 ^ 59 }
    ensures value { result ≡ items.repetition (counts.repeat_at points.now) }
    ensures within { IfSome result (λ x. (1 ≤ x.1) × (x.1 ≤ length points.now)) }
{
    let (repeat, len) = repeat_at(points)?;
    Some((Item::Repeat(repeat), len))
}

/// The opening of brackets.
fn bracket(points: &[char]) -> (Item, usize)
    ensures value { result ≡ items.bracket points.now }
    ensures within { (1 ≤ result.1) × (result.1 ≤ length points.now + 1) }
{
    if begins_with(points, '^') {
        (Item::OpenBracket(true), 2)
    } else {
        (Item::OpenBracket(false), 1)
    }
}

/// The item at the front, outside brackets, with its length.
fn item_at(points: &[char]) -> Option<(Item, usize)>
    requires { length points.now < 2 ^ 59 }
    ensures value { result ≡ items.item_at points.now }
    ensures within { IfSome result (λ x. (1 ≤ x.1) × (x.1 ≤ length points.now)) }
{
    match points {
        [] => None,
        ['(', rest @ ..] => opening(rest),
        ['[', rest @ ..] => Some(bracket(rest)),
        ['\\', rest @ ..] => after_backslash(rest),
        ['*' | '+' | '?' | '{', ..] => repetition(points),
        [c, ..] => Some((single(*c), 1)),
    }
}

/// The item at the front at this place.
fn placed_at(place: Place, points: &[char]) -> Option<(Item, usize)>
    requires { length points.now < 2 ^ 59 }
    ensures value { result ≡ items.placed_at place points.now }
    ensures within { IfSome result (λ x. (1 ≤ x.1) × (x.1 ≤ length points.now)) }
{
    match place {
        Place::Outside => item_at(points),
        Place::Opened => part_at(true, points),
        Place::Inside => part_at(false, points),
    }
}

/// Whether the item is taken. `fold`: cases are folded.
fn is_taken(fold: bool, item: Item) -> bool
    ensures { result ≡ items.is_taken fold item }
{
    if !fold {
        return true;
    }
    match item {
        Item::Literal(c) | Item::Range(_, c) => c < '\u{80}',
        _ => true,
    }
}

/// The item at the front at this place, with its length. `fold`: cases are folded.
pub fn next_at(fold: bool, place: Place, points: &[char]) -> Option<(Item, usize)>
    requires { length points.now < 2 ^ 59 }
    ensures value { result ≡ items.next_at fold place points.now }
    ensures within { IfSome result (λ x. (1 ≤ x.1) × (x.1 ≤ length points.now)) }
{
    let (item, len) = placed_at(place, points)?;
    if is_taken(fold, item) {
        Some((item, len))
    } else {
        None
    }
}
