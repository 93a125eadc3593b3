//! Fronts of texts, with the values that the definitions give them.
ghost use Rattle.wide_tokens.specs.Rows.{WideFrontRowsStand, WideNumberRowsStand};

/// The front of a text.
pub fn front_rows_stand()
    ensures { WideFrontRowsStand }
{}

/// The number at the front of a text.
pub fn number_rows_stand()
    ensures { WideNumberRowsStand }
{}
