//! Laws of match resources that may match. Each is the clause of a function that does nothing.
ghost use Rattle.policy_index.specs.Laws.{MatchesOnlyIfItMay};
ghost use Rattle.policy_index.specs.Rows.{MayMatchRowsHold};

/// Match resources on resources, worked by hand.
#[tactic(auto, unfolding(crate::specs::Naming::may_match))]
pub fn may_match_rows_hold()
    ensures { MayMatchRowsHold }
{}

/// What may not match a request on a resource matches none.
pub fn matches_only_if_it_may()
    ensures { MatchesOnlyIfItMay }
{}
