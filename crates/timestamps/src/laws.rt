//! Laws of the calendar, and texts and timestamps with the values that the definitions give. Each is the clause of a function
//! that does nothing.
ghost use Rattle.timestamps.specs.Laws.{DatesDiffer, YearsFollow};
ghost use Rattle.timestamps.specs.Rows.{TimestampFieldRowsHold, RefusedTimestampRowsHold, SpanRowsHold, TimestampRowsHold};

/// Texts with their timestamps.
pub fn timestamp_rows_hold()
    ensures { TimestampRowsHold }
{}

/// Texts that are not timestamps.
pub fn refused_timestamp_rows_hold()
    ensures { RefusedTimestampRowsHold }
{}

/// Timestamps with their fields.
#[tactic(auto, unfolding(crate::specs::Calendar::is_day, crate::specs::Calendar::day_number, crate::specs::Calendar::days_of_months))]
pub fn field_rows_hold()
    ensures { TimestampFieldRowsHold }
{}

/// Sums and differences.
#[tactic(auto, unfolding(crate::specs::Arithmetic::narrow, crate::specs::Arithmetic::second_if_both))]
pub fn span_rows_hold()
    ensures { SpanRowsHold }
{}

/// A year begins after the days of the year before it.
#[tactic(auto, using(crate::proofs::Years::years_follow))]
pub fn years_follow()
    ensures { YearsFollow }
{}

/// A day has one date.
#[tactic(auto, using(crate::proofs::OneDate::one_date))]
pub fn dates_differ()
    ensures { DatesDiffer }
{}
