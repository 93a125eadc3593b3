//! Laws of the helper rows, each proved as the contract of an empty function.
ghost use Rattle.helper_table.specs.Laws.{PlacedIsNamed, PlacedExtends, RowPlaces, CallsFollow, OthersPlaceNothing};
ghost use Rattle.helper_table.specs.ReadRows.{ReadRowsHold};
ghost use Rattle.helper_table.specs.Rows.{HelperRowsHold};
ghost use Rattle.helper_table.specs.Tables.{TablesAreKept};

/// Calls worked out by hand.
pub fn rows_stand()
    ensures { HelperRowsHold }
{}

/// What calls read, worked out by hand.
pub fn read_rows_stand()
    ensures { ReadRowsHold }
{}

/// A placed value has a reference to it, and every reference keeps its value.
pub fn placed_is_named()
    ensures named { PlacedIsNamed }
    ensures extends { PlacedExtends }
    ensures row { RowPlaces }
{}

/// A call that returns a word places at most one value, charges at least 1, and leaves a store.
#[tactic(auto, using(crate::proofs::Placing::outcome_follows))]
pub fn calls_follow()
    ensures { CallsFollow }
{}

/// Helpers that return a plain word or a bool place nothing.
#[tactic(auto, using(crate::proofs::Unplaced::others_place_nothing))]
pub fn others_place_nothing()
    ensures { OthersPlaceNothing }
{}

/// A call among the values of a table that is not stopped returns a word, and leaves a table.
#[tactic(auto, using(crate::proofs::Tables::tables_are_kept))]
pub fn tables_are_kept()
    ensures { TablesAreKept }
{}
