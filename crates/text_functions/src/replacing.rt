//! Texts with a part replaced.
ghost use Rattle.std.specs.Prelude.{◌≡◌, ◌<◌, ◌++◌, ◌^◌, IfOk, OnOk, string_bytes};
ghost use Rattle.std.specs.Str.{chars};
ghost use Rattle.text_functions.specs.Cuts.{chosen};
ghost use Rattle.text_functions.specs.Pieces as specs;
ghost use Rattle.std.specs.Str.{encode_utf8_all};

use crate::cuts::next_letter;
use crate::pieces::next_cut;
use crate::sizes::size;
use std::alloc::{AllocError, Global};

/// The text with the places of the part replaced by the other (`replace` of cel-go; strings.Replace): `most` of them
/// from the left, all for a negative number. An empty part is before each code point and at the end.
#[tactic(auto, unfolding(crate::specs::Pieces::replace_of))]
pub fn replace(
    alloc: Global,
    text: &str,
    part: &str,
    other: &str,
    most: i64,
) -> Result<String, AllocError>
    ensures { IfOk result (λ t. string_bytes t ≡ specs.replace_of most part.now other.now text.now) }
{
    let places = times(most, size(text));
    if size(part) == 0 {
        parted(alloc, text, other, places)
    } else {
        replaced(alloc, text, part, other, places)
    }
}

/// The greatest number of places to replace in a text of this size: more than it has for a negative number.
fn times(most: i64, size: u64) -> u64
    requires { size < 2 ^ 63 }
    ensures { result ≡ specs.times most size }
{
    match u64::try_from(most) {
        Ok(most) => most,
        Err(_) => size + 1,
    }
}

/// The text with the first `most` places of the part replaced.
fn replaced(
    alloc: Global,
    text: &str,
    part: &str,
    other: &str,
    most: u64,
) -> Result<String, AllocError>
    ensures { IfOk result (λ t. string_bytes t ≡ encode_utf8_all (specs.replaced most (chars part.now) (chars other.now) (chars text.now))) }
{
    let mut made = String::new(alloc);
    let mut rest = text;
    let mut left = most;
    'places: while let Some((before, after)) = next_cut(rest, part, left) {
        push_both(&mut made, before, other)?;
        rest = after;
        left -= 1;
    }
    made.push_str(rest)?;
    Ok(made)
}

/// The text with the other before each of the first `count` code points, and at the end if `count` exceeds their number.
fn parted(alloc: Global, text: &str, other: &str, count: u64) -> Result<String, AllocError>
    ensures { IfOk result (λ t. string_bytes t ≡ encode_utf8_all (specs.parted count (chars other.now) (chars text.now))) }
{
    let mut made = String::new(alloc);
    let mut rest = text;
    let mut left = count;
    'letters: while let Some((letter, after)) = next_letter(rest, left) {
        push_both(&mut made, other, letter)?;
        rest = after;
        left -= 1;
    }
    made.push_str(chosen(left, other, rest))?;
    Ok(made)
}

/// Appends two texts.
fn push_both(made: &mut String, first: &str, second: &str) -> Result<(), AllocError>
    ensures { OnOk result (string_bytes made.new ≡ string_bytes made.old ++ first.now ++ second.now) }
{
    made.push_str(first)?;
    made.push_str(second)
}

/// The first text if some are left, else the second.
fn chosen<'t>(left: u64, first: &'t str, second: &'t str) -> &'t str
    ensures { result.now ≡ chosen left first.now second.now }
{
    if left > 0 { first } else { second }
}
