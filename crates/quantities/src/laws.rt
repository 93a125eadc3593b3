//! Laws of the definitions. Each is the clause of a function that does nothing.
ghost use Rattle.quantities.specs.Laws.{RoundsUp};
ghost use Rattle.quantities.specs.Rows.{IntegerRowsHold, LimitRowsHold, QuantityOrderRowsHold, QuantityRowsHold, RefusedQuantityRowsHold};

/// Quantities with the values that the API server reads.
#[tactic(auto, unfolding(crate::specs::Quantities::spelled_of, crate::specs::Suffixes::decimal_of, crate::specs::Suffixes::binary_of, crate::specs::Suffixes::exponent_in, crate::specs::Quantities::scaled, text_numbers::specs::Numbers::number_after))]
pub fn quantity_rows_hold()
    ensures { QuantityRowsHold }
{}

/// Texts that the API server refuses.
#[tactic(auto, unfolding(crate::specs::Quantities::spelled_of, crate::specs::Suffixes::decimal_of, crate::specs::Suffixes::binary_of, crate::specs::Suffixes::exponent_in, text_numbers::specs::Numbers::number_after))]
pub fn refused_rows_hold()
    ensures { RefusedQuantityRowsHold }
{}

/// Quantities as ints.
pub fn integer_rows_hold()
    ensures { IntegerRowsHold }
{}

/// Signs, and quantities of more than 127 bits.
#[tactic(auto, unfolding(crate::specs::Quantities::spelled_of, crate::specs::Suffixes::decimal_of, crate::specs::Suffixes::binary_of, crate::specs::Suffixes::exponent_in, crate::specs::Quantities::scaled, crate::specs::Quantities::made, text_numbers::specs::Numbers::number_after))]
pub fn limit_rows_hold()
    ensures { LimitRowsHold }
{}

/// The order of quantities, sums and differences, in billionths.
pub fn order_rows_hold()
    ensures { QuantityOrderRowsHold }
{}

/// A number times a negative power of 10 is rounded up: to less than 1 above it, and to no less.
pub fn rounds_up()
    ensures { RoundsUp }
{}
