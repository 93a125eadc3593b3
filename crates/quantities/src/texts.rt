//! The functions of quantities on texts.
ghost use Rattle.std.specs.Prelude.{◌≡◌};
ghost use Rattle.quantities.specs.Quantities as specs;

use crate::amount::Quantity;
use crate::integers::integer_in;
use crate::quantity_error::QuantityError;
use crate::reading::spelled;
use crate::size::{quantity_in, sign_in};

/// `isQuantity(text)`: whether the text is a quantity.
pub fn is_quantity(text: &str) -> bool
    ensures { result ≡ specs.is_quantity text.now }
{
    match spelled(text.as_bytes()) {
        Some(_) => true,
        None => false,
    }
}

/// `quantity(text)`. `NotAQuantity` for any other text. `TooLarge`, which an API server does not have, if the digits
/// times the power of 2 of a binary suffix, or the billionths, do not fit 127 bits.
#[tactic(auto, using(crate::proofs::ByParts::quantity_by))]
pub fn quantity_of(text: &str) -> Result<Quantity, QuantityError>
    ensures { result ≡ specs.quantity_of text.now }
{
    match spelled(text.as_bytes()) {
        Some(spelled) => quantity_in(&spelled),
        None => Err(QuantityError::NotAQuantity),
    }
}

/// `quantity(text).asInteger()`: the int, if the API server holds the quantity as one. `None` for any other text.
#[tactic(auto, using(crate::proofs::ByParts::integer_by))]
pub fn as_integer(text: &str) -> Option<i64>
    ensures { result ≡ specs.as_integer_of text.now }
{
    match spelled(text.as_bytes()) {
        Some(spelled) => integer_in(&spelled),
        None => None,
    }
}

/// `quantity(text).isInteger()`: whether `asInteger()` has a value. `None` for a text that is not a quantity.
#[tactic(auto, using(crate::proofs::ByParts::is_integer_by))]
pub fn is_integer(text: &str) -> Option<bool>
    ensures { result ≡ specs.is_integer_of text.now }
{
    match spelled(text.as_bytes()) {
        Some(spelled) => Some(integer_in(&spelled).is_some()),
        None => None,
    }
}

/// `sign(quantity(text))`: -1, 0 or 1. `None` for a text that is not a quantity.
#[tactic(auto, using(crate::proofs::ByParts::sign_by))]
pub fn sign(text: &str) -> Option<i64>
    ensures { result ≡ specs.sign_of_text text.now }
{
    match spelled(text.as_bytes()) {
        Some(spelled) => Some(sign_in(&spelled)),
        None => None,
    }
}
