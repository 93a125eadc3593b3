//! The precedence of versions.
ghost use Rattle.std.specs.Prelude.{◌≡◌, ◌≤◌, true, length, option_map};
ghost use Rattle.versions.specs.Identifiers as identifiers;
ghost use Rattle.versions.specs.Order as specs;
ghost use Rattle.versions.specs.Versions.{IsPre, version_view};

use crate::identifiers::is_numeric;
use crate::version::Version;
use std::cmp::Ordering;
use text_numbers::digits_number;

/// The order of two identifiers of pre-releases.
#[tactic(auto, unfolding(crate::specs::Order::identifier_cmp))]
fn compare_identifiers(a: &[u8], b: &[u8]) -> Ordering
    requires first { identifiers.is_pre_identifier a.now ≡ true }
    requires second { identifiers.is_pre_identifier b.now ≡ true }
    ensures { result ≡ specs.identifier_cmp a.now b.now }
{
    if is_numeric(a) {
        if is_numeric(b) {
            digits_number(a).cmp(&digits_number(b))
        } else {
            Ordering::Less
        }
    } else if is_numeric(b) {
        Ordering::Greater
    } else {
        a.cmp(b)
    }
}

/// The number of bytes of the first identifier.
#[tactic(auto, using(crate::proofs::Dots::dot_empty, crate::proofs::Dots::dot_more, crate::proofs::Dots::dot_stop))]
fn first_len(text: &[u8]) -> usize
    ensures at { result ≡ identifiers.first_len text.now }
    ensures within { result ≤ length text.now }
{
    let mut n = 0;
    while n < text.len() && text[n] != b'.' {
        n += 1;
    }
    n
}

/// The first identifier, and the text after its dot, if there is one.
fn next(text: &[u8]) -> (&[u8], Option<&[u8]>)
    ensures first { result.0.now ≡ identifiers.first text.now }
    ensures after { option_map (λ t. t.now) result.1 ≡ identifiers.after_first text.now }
{
    let at = first_len(text);
    let halves = text.split_at(at);
    (halves.0, tail(halves.1))
}

/// The text without its first byte, if it has one.
fn tail(text: &[u8]) -> Option<&[u8]>
    ensures { option_map (λ t. t.now) result ≡ identifiers.tail text.now }
{
    match text {
        [_, rest @ ..] => Some(rest),
        [] => None,
    }
}

/// The order of two lists of identifiers.
fn compare_lists(a: &[u8], b: &[u8]) -> Ordering
    requires first { identifiers.are_pre_identifiers a.now ≡ true }
    requires second { identifiers.are_pre_identifiers b.now ≡ true }
    ensures { result ≡ specs.identifiers_cmp a.now b.now }
{
    let mut x = a;
    let mut y = b;
    'identifiers: loop {
        let left = next(x);
        let right = next(y);
        let order = compare_identifiers(left.0, right.0);
        if order != Ordering::Equal {
            return order;
        }
        match left.1 {
            Some(one) => match right.1 {
                Some(other) => {
                    x = one;
                    y = other;
                }
                None => return Ordering::Greater,
            },
            None => return if right.1.is_none() {
                Ordering::Equal
            } else {
                Ordering::Less
            },
        }
    }
}

/// The order of two pre-releases.
#[tactic(auto, unfolding(crate::specs::Order::pre_cmp))]
fn compare_pre(a: &[u8], b: &[u8]) -> Ordering
    requires first { IsPre a.now }
    requires second { IsPre b.now }
    ensures { result ≡ specs.pre_cmp a.now b.now }
{
    if a.is_empty() {
        if b.is_empty() {
            Ordering::Equal
        } else {
            Ordering::Greater
        }
    } else if b.is_empty() {
        Ordering::Less
    } else {
        compare_lists(a, b)
    }
}

impl<'t> Version<'t> {
    /// The precedence of two versions (`compareTo`, `isLessThan`, `isGreaterThan`; equal versions are `Equal`).
    #[tactic(auto, unfolding(crate::specs::Order::precedence))]
    pub fn compare(self, other: Version) -> Ordering
        requires first { IsPre self.pre.now }
        requires second { IsPre other.pre.now }
        ensures { result ≡ specs.precedence (version_view self.entry) (version_view other.entry) }
    {
        self.major
            .cmp(&other.major)
            .then(self.minor.cmp(&other.minor))
            .then(self.patch.cmp(&other.patch))
            .then(compare_pre(self.pre, other.pre))
    }
}
