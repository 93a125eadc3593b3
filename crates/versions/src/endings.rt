//! What follows the numbers of a version: its pre-release and its build metadata.
ghost use Rattle.std.specs.Prelude.{◌≡◌, ◌≤◌, IfSome, length, option_map};
ghost use Rattle.versions.specs.Identifiers as specs;
ghost use Rattle.versions.specs.Versions.{IsPre};

use crate::identifiers::{are_identifiers, are_pre_identifiers};

/// The number of bytes before the first plus.
#[tactic(auto, using(crate::proofs::Pluses::plus_empty, crate::proofs::Pluses::plus_more, crate::proofs::Pluses::plus_stop))]
fn plus_at(text: &[u8]) -> usize
    ensures at { result ≡ specs.plus_at text.now }
    ensures within { result ≤ length text.now }
{
    let mut n = 0;
    while n < text.len() && text[n] != b'+' {
        n += 1;
    }
    n
}

/// The pre-release after a hyphen, or nothing.
fn pre_of(text: &[u8]) -> Option<&[u8]>
    ensures value { option_map (λ p. p.now) result ≡ specs.pre_of text.now }
    ensures is { IfSome result (λ p. IsPre p.now) }
{
    match text {
        [] => Some(text),
        [b'-', pre @ ..] => {
            if are_pre_identifiers(pre) {
                Some(pre)
            } else {
                None
            }
        }
        _ => None,
    }
}

/// Whether the text is build metadata after a plus, or nothing.
fn is_build(text: &[u8]) -> bool
    ensures { result ≡ specs.is_build text.now }
{
    match text {
        [] => true,
        [b'+', build @ ..] => are_identifiers(build),
        _ => false,
    }
}

/// The pre-release of what follows the numbers, if that can follow them.
pub fn ending(text: &[u8]) -> Option<&[u8]>
    ensures value { option_map (λ p. p.now) result ≡ specs.ending text.now }
    ensures is { IfSome result (λ p. IsPre p.now) }
{
    let at = plus_at(text);
    let halves = text.split_at(at);
    if is_build(halves.1) {
        pre_of(halves.0)
    } else {
        None
    }
}
