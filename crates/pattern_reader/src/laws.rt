//! Laws of the definitions. Each is the clause of a function that does nothing.

ghost use Rattle.pattern_reader.specs.Laws.{ComputesOutcomes, OutcomesAreUnique};
ghost use Rattle.pattern_reader.specs.Rows.{RefusedPatternRowsHold, TakenRowsHold, WrittenRowsHold};
ghost use Rattle.pattern_reader.specs.SearchedRows.{SearchedRowsHold};

/// A pattern has one outcome.
#[tactic(auto, using(crate::proofs::OneOutcome::outcomes_are_unique))]
pub fn outcomes_are_unique()
    ensures { OutcomesAreUnique }
{}

/// What the definition computes for a pattern is its outcome.
#[tactic(auto, using(crate::proofs::Outcomes::computes_outcomes))]
pub fn computes_outcomes()
    ensures { ComputesOutcomes }
{}

/// Items and trees of patterns.
pub fn taken_rows_hold()
    ensures { TakenRowsHold }
{}

/// Where patterns are refused.
pub fn refused_rows_hold()
    ensures { RefusedPatternRowsHold }
{}

/// Texts that are written.
pub fn written_rows_hold()
    ensures { WrittenRowsHold }
{}

/// What `regex` searches for in texts that are written.
pub fn searched_rows_hold()
    ensures { SearchedRowsHold }
{}
