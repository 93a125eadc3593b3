//! What decides whether a part of a pattern can be repeated.

ghost use Rattle.std.specs.Prelude.{◌≡◌, max, nat_le, if◌then◌else◌};
ghost use Rattle.pattern_reader.specs.Measures as measures;
ghost use Rattle.pattern_reader.specs.Tree.{repeated_weight};

use crate::purpose::{Purpose, finds};
use crate::repeat::Repeat;

/// What decides whether a part of a pattern can be repeated.
#[derive(Clone, Copy)]
pub struct Measure {
    /// It can match the empty text.
    pub can_be_empty: bool,
    /// The greatest product of its nested counts.
    pub weight: u32,
}

/// One item.
pub fn unit(can_be_empty: bool) -> Measure
    ensures { result ≡ measures.unit can_be_empty }
{
    Measure {
        can_be_empty,
        weight: 1,
    }
}

/// The greater of two weights.
fn greater(a: u32, b: u32) -> u32
    ensures { result ≡ max a b }
{
    if a < b { b } else { a }
}

/// One part after another.
pub fn joined(a: Measure, b: Measure) -> Measure
    ensures { result ≡ measures.joined a b }
{
    Measure {
        can_be_empty: a.can_be_empty && b.can_be_empty,
        weight: greater(a.weight, b.weight),
    }
}

/// One part or else another.
pub fn alternatives(a: Measure, b: Measure) -> Measure
    ensures { result ≡ measures.alternatives a b }
{
    Measure {
        can_be_empty: a.can_be_empty || b.can_be_empty,
        weight: greater(a.weight, b.weight),
    }
}

/// The weight of a part that is repeated, if it is within the limit.
fn repeated_weight(repeat: Repeat, weight: u32) -> Option<u32>
    ensures { result ≡ (if nat_le (repeated_weight repeat.min repeat.max weight) 1000
        then Some (repeated_weight repeat.min repeat.max weight) else None) }
{
    let product = match repeat.max {
        None => greater(repeat.min, 1).saturating_mul(weight),
        Some(0) => 1,
        Some(max) => max.saturating_mul(weight),
    };
    if product <= 1000 { Some(product) } else { None }
}

/// The part repeated, unless it cannot be.
pub fn repeated(purpose: Purpose, repeat: Repeat, part: Measure) -> Option<Measure>
    ensures { result ≡ (if measures.may_repeat purpose part repeat then Some (measures.repeated repeat part) else None) }
{
    if part.can_be_empty && finds(purpose) {
        return None;
    }
    let weight = repeated_weight(repeat, part.weight)?;
    Some(Measure {
        can_be_empty: repeat.min == 0 || part.can_be_empty,
        weight,
    })
}
