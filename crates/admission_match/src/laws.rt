//! Laws of the definitions. Each is the clause of a function that does nothing.
ghost use Rattle.admission_match.specs.BorderRows.{BorderRowsHold};
ghost use Rattle.admission_match.specs.Laws.{CandidatesMayFit, EveryServerAgrees, ExcludesHaveNoOrder, ExemptInEachVersion, RulesHaveNoOrder};
ghost use Rattle.admission_match.specs.Rows.{CoversRowsHold, EquivalentRowsHold, ExemptRowsHold, FitsRowsHold, MatchRowsHold};

/// Patterns of resources, one row each.
#[tactic(auto, unfolding(crate::specs::Rules::covers))]
pub fn covers_rows_hold()
    ensures { CoversRowsHold }
{}

/// Rules on requests, worked by hand.
#[tactic(auto, unfolding(crate::specs::Rules::covers, crate::specs::Rules::fits))]
pub fn fits_rows_hold()
    ensures { FitsRowsHold }
{}

/// Equivalent resources and lists of rules, worked by hand.
#[tactic(auto, unfolding(crate::specs::Rules::covers, crate::specs::Rules::fits, crate::specs::Rules::is_shared, crate::specs::Rules::is_candidate, crate::specs::Rules::may_fit))]
pub fn equivalent_rows_hold()
    ensures { EquivalentRowsHold }
{}

/// Exempt resources, one row each, and others.
#[tactic(auto, unfolding(crate::specs::Requests::is_exempt, crate::specs::Requests::is_policy_resource, crate::specs::Requests::is_authentication_review, crate::specs::Requests::is_access_review))]
pub fn exempt_rows_hold()
    ensures { ExemptRowsHold }
{}

/// Match resources on requests, worked by hand.
#[tactic(auto, unfolding(crate::specs::Matching::match_answer, crate::specs::Rules::covers, crate::specs::Rules::fits, crate::specs::Rules::is_shared, crate::specs::Rules::may_fit))]
pub fn match_rows_hold()
    ensures { MatchRowsHold }
{}

/// Edge cases of the tables, worked by hand.
#[tactic(auto, unfolding(crate::specs::Matching::match_answer, crate::specs::Rules::covers, crate::specs::Rules::fits, crate::specs::Rules::is_shared, crate::specs::Rules::is_candidate, crate::specs::Rules::may_fit))]
pub fn border_rows_hold()
    ensures { BorderRowsHold }
{}

/// A resource is exempt in each version or in none.
#[tactic(auto, unfolding(crate::specs::Requests::is_exempt))]
pub fn exempt_in_each_version()
    ensures { ExemptInEachVersion }
{}

/// A rule that fits a candidate may fit.
pub fn candidates_may_fit()
    ensures { CandidatesMayFit }
{}

/// Two adjacent rules may be exchanged, so the order of rules does not matter.
pub fn rules_have_no_order()
    ensures { RulesHaveNoOrder }
{}

/// Two adjacent excluding rules may be exchanged, so their order does not matter.
pub fn excludes_have_no_order()
    ensures { ExcludesHaveNoOrder }
{}

/// An answer other than unknown holds for every server, for any versions and groups that it serves.
pub fn every_server_agrees()
    ensures { EveryServerAgrees }
{}
