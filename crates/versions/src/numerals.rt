//! The numbers of a version.
ghost use Rattle.std.specs.Prelude.{◌≡◌, drop, length, option_map};
ghost use Rattle.versions.specs.Versions as specs;

use crate::identifiers::{has_zero, is_small};
use text_numbers::{digits_len, digits_number};

/// Whether digits are a number here.
fn is_allowed(normalize: bool, digits: &[u8]) -> bool
    ensures { result ≡ specs.is_allowed normalize digits.now }
{
    (normalize || !has_zero(digits)) && is_small(digits)
}

/// The number of these digits, if there are any, and the text that follows.
fn numeral<'t>(normalize: bool, digits: &[u8], rest: &'t [u8]) -> Option<(u64, &'t [u8])>
    ensures { option_map (λ p. (p.0, p.1.now)) result ≡ specs.numeral normalize digits.now rest.now }
{
    if !digits.is_empty() && is_allowed(normalize, digits) {
        Some((digits_number(digits) as u64, rest))
    } else {
        None
    }
}

/// The number at the front, and the text that follows.
#[tactic(auto, unfolding(crate::specs::Versions::number_at))]
pub fn number_at(normalize: bool, text: &[u8]) -> Option<(u64, &[u8])>
    ensures { option_map (λ p. (p.0, p.1.now)) result ≡ specs.number_at normalize text.now }
{
    let len = digits_len(text);
    let halves = text.split_at(len);
    numeral(normalize, halves.0, halves.1)
}

/// The patch at the front, and the text that follows.
#[tactic(auto, unfolding(crate::specs::Versions::patch_at))]
fn patch_at(normalize: bool, text: &[u8]) -> Option<(u64, &[u8])>
    ensures { option_map (λ p. (p.0, p.1.now)) result ≡ specs.patch_at normalize text.now }
{
    if normalize && digits_len(text) == 0 && text.len() > 1 {
        Some((0, text))
    } else {
        number_at(normalize, text)
    }
}

/// The text after a dot.
fn after_dot(text: &[u8]) -> Option<&[u8]>
    ensures { option_map (λ t. t.now) result ≡ specs.after_dot text.now }
{
    match text {
        [b'.', rest @ ..] => Some(rest),
        _ => None,
    }
}

/// The minor number after a dot, and the text that follows.
#[tactic(auto, unfolding(crate::specs::Versions::minor_at))]
pub fn minor_at(normalize: bool, rest: &[u8]) -> Option<(u64, &[u8])>
    ensures { option_map (λ p. (p.0, p.1.now)) result ≡ specs.minor_at normalize rest.now }
{
    if normalize && rest.is_empty() {
        return Some((0, rest));
    }
    let text = after_dot(rest)?;
    number_at(normalize, text)
}

/// The patch after a dot, and the text that follows.
#[tactic(auto, unfolding(crate::specs::Versions::last_at))]
pub fn last_at(normalize: bool, rest: &[u8]) -> Option<(u64, &[u8])>
    ensures { option_map (λ p. (p.0, p.1.now)) result ≡ specs.last_at normalize rest.now }
{
    if normalize && rest.is_empty() {
        return Some((0, rest));
    }
    let text = after_dot(rest)?;
    patch_at(normalize, text)
}

/// The text without a `v` in front, if it is normalized.
pub fn without_v(normalize: bool, text: &[u8]) -> &[u8]
    ensures { result.now ≡ specs.without_v normalize text.now }
{
    match text {
        [b'v', rest @ ..] => { if normalize { rest } else { text } }
        _ => text,
    }
}
