//! Laws of the definitions, each the clause of a function that does nothing.
ghost use Rattle.cluster_gate.specs.Laws.{ExemptIsAllowed, FailsClosedAsCompiled, ReviewsHaveOneAnswer, StatesAreShallow, UnmatchedIsAllowed};
ghost use Rattle.cluster_gate.specs.OnePolicy.{OnePolicyIsReview};
ghost use Rattle.cluster_gate.specs.Orders.{OrderIsFree};
ghost use Rattle.cluster_gate.specs.Servers.{EquivalentsAreFree, ServersHaveAnswers};
ghost use Rattle.cluster_gate.specs.StepRows.{EventAnswersHold, EventRowsHold};

use admission::laws::{findings_once, reviews_once};
use admission_match::laws::every_server_agrees;
use cluster_response::laws::{allowed_exactly, warnings_are_those_of_events};
use policy_glue::laws::compiles_once;

/// A request on a resource that no policy is asked about is allowed.
pub fn exempt_is_allowed()
    ensures { ExemptIsAllowed }
{}

/// A request that the constraints of no policy match is allowed.
pub fn unmatched_is_allowed()
    ensures { UnmatchedIsAllowed }
{}

/// No document of a state is nested deeper than JSON texts that are read, if the lists are not.
pub fn states_are_shallow()
    ensures { StatesAreShallow }
{}

/// A review has one answer in a cluster, if no document of the state is nested deeper than JSON
/// texts that are read.
pub fn one_answer()
    ensures { ReviewsHaveOneAnswer }
{
    compiles_once();
    findings_once();
}

/// Whether a request is allowed, and whether its namespace is not found, does not depend on the
/// order of policies and of bindings. Nor, if it is found, do the events.
pub fn order_is_free()
    ensures { OrderIsFree }
{
    compiles_once();
    findings_once();
    allowed_exactly();
    warnings_are_those_of_events();
}

/// The events of some steps, and the answers by them, worked by hand.
pub fn step_rows_hold()
    ensures steps { EventRowsHold }
    ensures answers { EventAnswersHold }
{}

/// If each policy decides, an API server has the same answer, for any other versions and groups of
/// the resource that it stores in the same place.
pub fn equivalents_are_free()
    ensures answers { ServersHaveAnswers }
    ensures same { EquivalentsAreFree }
{
    compiles_once();
    findings_once();
    every_server_agrees();
}

/// A cluster with one policy, without params, and one binding that denies decides as a review under
/// that policy, if both match the request.
pub fn one_policy_is_review()
    ensures { OnePolicyIsReview }
{
    compiles_once();
    reviews_once();
    allowed_exactly();
}

/// An error of a compiled policy denies in its steps exactly if its failure policy is `Fail`.
pub fn fails_closed_as_compiled()
    ensures { FailsClosedAsCompiled }
{}
