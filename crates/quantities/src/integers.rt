//! Quantities as ints.
ghost use Rattle.std.specs.Prelude.{◌≡◌};
ghost use Rattle.quantities.specs.Quantities as specs;

use crate::held::is_held;
use crate::numbers::{mantissa, scale};
use crate::powers::raised;
use crate::spelled::Spelled;

/// The int of this sign and size, if it is below 2^63 in size.
#[tactic(auto, unfolding(crate::specs::Quantities::small_int))]
fn small(minus: bool, size: u128) -> Option<i64>
    ensures { result ≡ specs.small_int minus size }
{
    if size < 9223372036854775808 {
        let int = size as i64;
        Some(if minus { -int } else { int })
    } else {
        None
    }
}

/// The int of a sign, a mantissa and a scale of at least 0.
#[tactic(auto, using(crate::proofs::Ints::scaled_ints))]
fn scaled_int(minus: bool, mantissa: u128, scale: i128) -> Option<i64>
    ensures { result ≡ specs.int_of minus mantissa scale }
{
    if scale >= 0 {
        small(minus, raised(mantissa, scale.unsigned_abs()))
    } else {
        None
    }
}

/// `asInteger()` of the quantity of these parts.
#[tactic(auto, using(crate::proofs::Ints::kept_ints))]
pub fn integer_in(spelled: &Spelled) -> Option<i64>
    ensures { result ≡ specs.integer_in (specs.spelled_view spelled.now) }
{
    if is_held(spelled) {
        scaled_int(spelled.minus, mantissa(spelled), scale(spelled))
    } else {
        None
    }
}
