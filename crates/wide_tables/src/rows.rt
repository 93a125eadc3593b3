//! Rows that were worked out by hand.

ghost use Rattle.wide_tables.specs.Rows.{WrapRowsHold};

/// The wrapped roots and the charges that were worked out by hand.
pub fn rows_stand()
    ensures { WrapRowsHold }
{}
