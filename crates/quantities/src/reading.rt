//! Texts as quantities in parts.
ghost use Rattle.std.specs.Prelude.{◌≡◌, option_map};
ghost use Rattle.quantities.specs.Quantities as specs;
ghost use Rattle.text_numbers.specs.Numbers.{number_view};

use crate::held::is_held;
use crate::spelled::Spelled;
use crate::suffixes::unit_of;
use crate::unit::Unit;
use text_numbers::{Number, has_minus, number_at, without_sign};

/// Whether the parts are a quantity: with a digit, or held as 0.
fn is_number(spelled: &Spelled) -> bool
    ensures { result ≡ specs.is_number (specs.spelled_view spelled.now) }
{
    !(spelled.whole.is_empty() && spelled.fraction.is_empty()) || is_held(spelled)
}

/// The parts of a number with its sign and unit, if they are a quantity.
fn with_unit<'t>(minus: bool, number: &Number<'t>, unit: Unit) -> Option<Spelled<'t>>
    ensures { option_map specs.spelled_view result ≡ specs.with_unit minus (number_view number.now) unit }
{
    let spelled = Spelled {
        minus,
        whole: number.whole,
        fraction: number.fraction,
        unit,
    };
    if is_number(&spelled) {
        Some(spelled)
    } else {
        None
    }
}

/// The parts of a number with its sign, if what follows is the suffix of a quantity.
fn parts<'t>(minus: bool, number: &Number<'t>) -> Option<Spelled<'t>>
    ensures { option_map specs.spelled_view result ≡ specs.parts_of minus (number_view number.now) }
{
    match unit_of(number.rest) {
        Some(unit) => with_unit(minus, number, unit),
        None => None,
    }
}

/// The parts of the quantity that the text spells, or `None` for any other text.
#[tactic(auto, unfolding(crate::specs::Quantities::spelled_of))]
pub fn spelled(text: &[u8]) -> Option<Spelled<'_>>
    ensures { option_map specs.spelled_view result ≡ specs.spelled_of text.now }
{
    let number = number_at(without_sign(text));
    if text.is_empty() {
        None
    } else {
        parts(has_minus(text), &number)
    }
}
