//! The order of quantities, sums and differences.
ghost use Rattle.std.specs.Prelude.{◌≡◌, ◌+ℤ◌, ◌-ℤ◌};
ghost use Rattle.quantities.specs.Quantities as specs;

use crate::amount::Quantity;
use crate::quantity_error::QuantityError;
use std::cmp::Ordering;

impl Quantity {
    /// The order of the numbers (`compareTo`, `isLessThan`, `isGreaterThan`).
    pub fn compare(self, other: Quantity) -> Ordering
        ensures { result ≡ specs.order_of self.billionths other.billionths }
    {
        if self.billionths < other.billionths {
            Ordering::Less
        } else if other.billionths < self.billionths {
            Ordering::Greater
        } else {
            Ordering::Equal
        }
    }

    /// The sum, or `TooLarge` if its billionths do not fit 128 bits.
    pub fn add(self, other: Quantity) -> Result<Quantity, QuantityError>
        ensures { result ≡ specs.fitting (self.billionths +ℤ other.billionths) }
    {
        match self.billionths.checked_add(other.billionths) {
            Some(billionths) => Ok(Quantity { billionths }),
            None => Err(QuantityError::TooLarge),
        }
    }

    /// The difference, or `TooLarge` if its billionths do not fit 128 bits.
    pub fn sub(self, other: Quantity) -> Result<Quantity, QuantityError>
        ensures { result ≡ specs.fitting (self.billionths -ℤ other.billionths) }
    {
        match self.billionths.checked_sub(other.billionths) {
            Some(billionths) => Ok(Quantity { billionths }),
            None => Err(QuantityError::TooLarge),
        }
    }
}
