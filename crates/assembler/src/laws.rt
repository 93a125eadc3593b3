//! The laws of assembling, each proved as the contract of an empty function.

ghost use Rattle.assembler.specs.Laws.{ListingIsSource, OneAnswer, RefusedByCause, SourceIsAssembled};
ghost use Rattle.assembler.specs.Reading.{OneReading};
ghost use Rattle.assembler.specs.SourceRows.{SourceRowsHold};

use insn_codec::{no_line_feed, slots_are_filled, statement_is_spelled};

/// A text is the source of exactly the code that assembling it returns.
#[tactic(auto, using(crate::proofs::Sources::of_source, crate::proofs::Sources::source_of))]
pub fn source_is_assembled()
    ensures { SourceIsAssembled }
{}

/// A text is refused at the first line with `UnknownLine`, `NumberOutOfRange`, `DuplicateLabel` or
/// `TooManySlots`; if there is none, at the first line with a jump to a label that is not defined
/// (`UnknownLabel`) or too far away (`JumpTooFar`).
#[tactic(auto, using(crate::proofs::Refusing::caused, crate::proofs::Refusing::of_cause))]
pub fn refused_by_cause()
    ensures { RefusedByCause }
{}

/// Each line has one reading, so that the outcome of assembling is unique.
#[tactic(auto, using(crate::proofs::Whole::one_reading, crate::proofs::Sources::one_answer))]
pub fn one_answer()
    ensures one_reading { OneReading }
    ensures one_answer { OneAnswer }
{}

/// The listing of code is its source, so that assembling it returns that code.
#[tactic(auto, using(crate::proofs::Listed::listed))]
pub fn listing_is_source()
    ensures { ListingIsSource }
{
    no_line_feed();
    statement_is_spelled();
    slots_are_filled();
}

/// Sources worked out by hand: the items of their lines, numbers in and out of range, and the targets of labels.
#[tactic(auto)]
pub fn source_rows_stand()
    ensures { SourceRowsHold }
{}
