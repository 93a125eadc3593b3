//! Parts of texts by the places of code points.
ghost use Rattle.std.specs.Prelude.{◌≡◌, ◌<◌, ◌^◌, IfSome, option_map};
ghost use Rattle.std.specs.Str.{chars};
ghost use Rattle.text_functions.specs.Parts as specs;

use crate::cuts::cut;
use crate::sizes::size;

/// The code points from place `from` up to place `to` (`substring` of cel-go). `None` unless 0 ≤ from ≤ to ≤ size.
#[tactic(auto, unfolding(crate::specs::Parts::substring_of))]
pub fn substring(text: &str, from: i64, to: i64) -> Option<&str>
    ensures { option_map (λ t. t.now) result ≡ specs.substring_of from to text.now }
{
    let from = natural(from)?;
    let to = natural(to)?;
    from_to(text, from, to)
}

/// The code points from place `from` up to place `to`, if from ≤ to ≤ size.
fn from_to(text: &str, from: u64, to: u64) -> Option<&str>
    ensures { option_map (λ t. t.now) result ≡ specs.spelled (specs.from_to from to (chars text.now)) }
{
    if to < from {
        return None;
    }
    if size(text) < to {
        return None;
    }
    let whole = cut(text, from);
    let end = cut(whole.1, to - from);
    Some(end.0)
}

/// The code points from place `from` on. `None` unless 0 ≤ from ≤ size.
#[tactic(auto, unfolding(crate::specs::Parts::substring_from_of))]
pub fn substring_from(text: &str, from: i64) -> Option<&str>
    ensures { option_map (λ t. t.now) result ≡ specs.substring_from_of from text.now }
{
    let from = natural(from)?;
    from_on(text, from)
}

/// The code points from place `from` on, if from ≤ size.
fn from_on(text: &str, from: u64) -> Option<&str>
    ensures { option_map (λ t. t.now) result ≡ specs.spelled (specs.from_on from (chars text.now)) }
{
    if size(text) < from {
        return None;
    }
    let whole = cut(text, from);
    Some(whole.1)
}

/// The code point at place `at`, as a text; empty at the end (`charAt` of cel-go). `None` unless 0 ≤ at ≤ size.
#[tactic(auto, unfolding(crate::specs::Parts::char_at_of))]
pub fn char_at(text: &str, at: i64) -> Option<&str>
    ensures { option_map (λ t. t.now) result ≡ specs.char_at_of at text.now }
{
    let at = natural(at)?;
    code_point_at(text, at)
}

/// The code point at place `at`, or nothing at the end, if at ≤ size.
fn code_point_at(text: &str, at: u64) -> Option<&str>
    ensures { option_map (λ t. t.now) result ≡ specs.spelled (specs.code_point_at at (chars text.now)) }
{
    if size(text) < at {
        return None;
    }
    let whole = cut(text, at);
    let end = cut(whole.1, 1);
    Some(end.0)
}

/// The place, if it is not negative.
pub fn natural(place: i64) -> Option<u64>
    ensures value { result ≡ specs.natural place }
    ensures small { IfSome result (λ n. n < 2 ^ 63) }
{
    match u64::try_from(place) {
        Ok(place) => Some(place),
        Err(_) => None,
    }
}
