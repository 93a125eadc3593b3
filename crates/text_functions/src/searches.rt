//! The first and the last place of a part.
ghost use Rattle.std.specs.Prelude.{◌≡◌, ◌<◌, ◌+◌, ◌^◌, IfSome, length, option_map};
ghost use Rattle.std.specs.Str.{chars};
ghost use Rattle.text_functions.specs.Parts as specs;

use crate::cuts::cut;
use crate::parts::natural;
use crate::places::{around, last_around};
use crate::sizes::size;

/// The first place of the part, or -1 (`indexOf` of cel-go).
#[tactic(auto, unfolding(crate::specs::Parts::index_of_of))]
pub fn index_of(text: &str, part: &str) -> i64
    ensures { result ≡ specs.index_of_of part.now text.now }
{
    first_from_place(text, part, 0)
}

/// The first place of the part at or after place `from`, or -1. `None` for a negative `from`.
#[tactic(auto, unfolding(crate::specs::Parts::index_of_from))]
pub fn index_of_from(text: &str, part: &str, from: i64) -> Option<i64>
    ensures { result ≡ specs.index_of_from part.now from text.now }
{
    let from = natural(from)?;
    Some(first_from_place(text, part, from))
}

/// The first place of the part at or after place `from`, or after the end from there, or -1.
fn first_from_place(text: &str, part: &str, from: u64) -> i64
    ensures { result ≡ specs.first_from_place from (chars part.now) (chars text.now) }
{
    let whole = cut(text, from);
    let passed = size(whole.0);
    let parts = around(part, whole.1);
    place_after(passed, parts)
}

/// The last place of the part, or -1 (`lastIndexOf` of cel-go).
#[tactic(auto, unfolding(crate::specs::Parts::last_index_of_of))]
pub fn last_index_of(text: &str, part: &str) -> i64
    ensures { result ≡ specs.last_index_of_of part.now text.now }
{
    let parts = last_around(part, text);
    place_after(0, parts)
}

/// The last place of the part at or before place `to`, or -1; always -1 for a `to` at or after the end, unless the part
/// is empty. `None` for a negative `to`.
#[tactic(auto, unfolding(crate::specs::Parts::last_index_of_to))]
pub fn last_index_of_to(text: &str, part: &str, to: i64) -> Option<i64>
    ensures { result ≡ specs.last_index_of_to part.now to text.now }
{
    let to = natural(to)?;
    Some(last_within(text, part, to))
}

/// The last place of the part at or before place `to`; -1 for a `to` at or after the end, unless the part is empty.
fn last_within(text: &str, part: &str, to: u64) -> i64
    requires { to < 2 ^ 63 }
    ensures { result ≡ specs.last_within to (chars part.now) (chars text.now) }
{
    if size(part) == 0 {
        return last_to_place(text, part, to);
    }
    if size(text) <= to {
        return -1;
    }
    last_to_place(text, part, to)
}

/// The last place of the part at or before place `to`, or -1.
fn last_to_place(text: &str, part: &str, to: u64) -> i64
    requires { to < 2 ^ 63 }
    ensures { result ≡ specs.last_to_place to (chars part.now) (chars text.now) }
{
    let count = size(part);
    let whole = cut(text, to + count);
    let parts = last_around(part, whole.0);
    place_after(0, parts)
}

/// The number of code points before the first of two parts, after `passed` others; -1 for no parts.
fn place_after(passed: u64, parts: Option<(&str, &str)>) -> i64
    requires { IfSome parts (λ p. passed + length p.0.now < 2 ^ 63) }
    ensures { result ≡ specs.place_or_none (option_map (λ p. passed + length (chars p.0.now)) parts.entry) }
{
    match parts {
        None => -1,
        Some((before, _)) => (passed + size(before)) as i64,
    }
}
