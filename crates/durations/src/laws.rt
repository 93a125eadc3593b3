//! Texts and durations with the values that the definitions give. Each is the clause of a function that does nothing.
ghost use Rattle.durations.specs.Rows.{DurationRowsHold, FineDurationRowsHold, DurationPartRowsHold, RefusedDurationRowsHold, DurationSumRowsHold};

/// Durations with the values that Go reads.
#[tactic(auto, unfolding(crate::specs::Durations::duration_of, crate::specs::Durations::sum_after, crate::specs::Durations::next, crate::specs::Durations::unit_named, text_numbers::specs::Numbers::number_after))]
pub fn duration_rows_hold()
    ensures { DurationRowsHold }
{}

/// Texts that Go refuses.
#[tactic(auto, unfolding(crate::specs::Durations::duration_of, crate::specs::Durations::sum_after, crate::specs::Durations::next, crate::specs::Durations::unit_named, text_numbers::specs::Numbers::number_after))]
pub fn refused_duration_rows_hold()
    ensures { RefusedDurationRowsHold }
{}

/// Fractions with more places than are read exactly.
#[tactic(auto, unfolding(crate::specs::Durations::duration_of, crate::specs::Durations::sum_after, crate::specs::Durations::next, crate::specs::Durations::unit_named, text_numbers::specs::Numbers::number_after))]
pub fn fine_duration_rows_hold()
    ensures { FineDurationRowsHold }
{}

/// Whole units.
pub fn part_rows_hold()
    ensures { DurationPartRowsHold }
{}

/// Sums, differences and negated durations.
pub fn sum_rows_hold()
    ensures { DurationSumRowsHold }
{}
