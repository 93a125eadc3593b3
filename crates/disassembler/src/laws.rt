//! Laws of listings, each proved as the contract of an empty function.
ghost use Rattle.disassembler.specs.Laws.{OneListing};
ghost use Rattle.disassembler.specs.Rows.{ListingRowsHold};

use insn_codec::slots_are_filled;

/// Each code has exactly one listing.
#[tactic(auto, using(crate::proofs::One::one_of))]
pub fn one_listing()
    ensures { OneListing }
{
    slots_are_filled();
}

/// Listings worked out by hand.
pub fn rows_stand()
    ensures { ListingRowsHold }
{}
