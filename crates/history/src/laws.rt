//! Laws of searches, each proved as the contract of an empty function.
ghost use Rattle.history.specs.Rows.{SearchRowsStand};
ghost use Rattle.history.specs.Search.{FirstIsLeast, LastIsGreatest};

/// A forward search finds the least place at which the run stops.
pub fn first_is_least()
    ensures { FirstIsLeast }
{}

/// A backward search finds the greatest place with a breakpoint.
pub fn last_is_greatest()
    ensures { LastIsGreatest }
{}

/// Searches of two short programs, worked out by hand.
pub fn rows_stand()
    ensures { SearchRowsStand }
{}
