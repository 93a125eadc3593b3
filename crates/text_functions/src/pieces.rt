//! Texts cut at a separator.
ghost use Rattle.std.specs.Prelude.{◌≡◌, ◌<◌, IfOk, IfSome, map, option_map};
ghost use Rattle.std.specs.Str.{IsUtf8, chars};
ghost use Rattle.text_functions.specs.Pieces as specs;

use crate::cuts::next_letter;
use crate::places::around;
use crate::sizes::size;
use std::alloc::{AllocError, Global};

/// The text cut at the places of the separator (`split` of cel-go; strings.SplitN): into at most `most` pieces, none for
/// 0, all for a negative number. An empty separator cuts after each code point.
#[tactic(auto, unfolding(crate::specs::Pieces::split_of))]
pub fn split<'t>(
    alloc: Global,
    text: &'t str,
    separator: &str,
    most: i64,
) -> Result<Vec<&'t str>, AllocError>
    ensures { IfOk result (λ ps. map (λ p. p.now) ps.items ≡ specs.split_of most separator.now text.now) }
{
    match cuts(most, size(text)) {
        Some(cuts) => cut_at(alloc, text, separator, cuts),
        None => Ok(Vec::new(alloc)),
    }
}

/// The greatest number of cuts for `most` pieces of a text of this size: none at all for 0, the size for a negative number.
fn cuts(most: i64, size: u64) -> Option<u64>
    ensures { result ≡ specs.cuts most size }
{
    match u64::try_from(most) {
        Ok(most) => {
            if most == 0 {
                return None;
            }
            Some(most - 1)
        }
        Err(_) => Some(size),
    }
}

/// The text cut at most `cuts` times.
fn cut_at<'t>(
    alloc: Global,
    text: &'t str,
    separator: &str,
    cuts: u64,
) -> Result<Vec<&'t str>, AllocError>
    ensures { IfOk result (λ ps. map (λ p. p.now) ps.items ≡ specs.all_spelled (specs.cut_at cuts (chars separator.now) (chars text.now))) }
{
    if size(separator) == 0 {
        letters(alloc, text, cuts)
    } else {
        pieces(alloc, text, separator, cuts)
    }
}

/// The text cut at the first `cuts` places of the separator.
fn pieces<'t>(
    alloc: Global,
    text: &'t str,
    separator: &str,
    cuts: u64,
) -> Result<Vec<&'t str>, AllocError>
    ensures { IfOk result (λ ps. map (λ p. p.now) ps.items ≡ specs.all_spelled (specs.pieces cuts (chars separator.now) (chars text.now))) }
{
    let mut parts = Vec::new(alloc);
    let mut rest = text;
    let mut left = cuts;
    'pieces: while let Some((part, after)) = next_cut(rest, separator, left) {
        parts.push(part)?;
        rest = after;
        left -= 1;
    }
    parts.push(rest)?;
    Ok(parts)
}

/// The text before and after the next cut, if one is left.
pub fn next_cut<'t>(text: &'t str, separator: &str, left: u64) -> Option<(&'t str, &'t str)>
    ensures parts { option_map (λ p. (chars p.0.now, chars p.1.now)) result ≡ specs.next_cut left (chars separator.now) (chars text.now) }
    ensures some { IfSome result (λ _. 0 < left) }
    ensures utf8 { IfSome result (λ p. IsUtf8 p.0.now × IsUtf8 p.1.now) }
{
    if left == 0 {
        None
    } else {
        around(separator, text)
    }
}

/// The first `count` code points, each a text, and the text of those that are left.
fn letters<'t>(alloc: Global, text: &'t str, count: u64) -> Result<Vec<&'t str>, AllocError>
    ensures { IfOk result (λ ps. map (λ p. p.now) ps.items ≡ specs.all_spelled (specs.letters count (chars text.now))) }
{
    let mut parts = Vec::new(alloc);
    let mut rest = text;
    let mut left = count;
    'letters: while let Some((letter, after)) = next_letter(rest, left) {
        parts.push(letter)?;
        rest = after;
        left -= 1;
    }
    if rest.is_empty() {
        return Ok(parts);
    }
    parts.push(rest)?;
    Ok(parts)
}
