//! Laws: what is proved of reviews in general. Each is the clause of a function that does nothing.
ghost use Rattle.std.specs.Prelude.{◌≡◌};
ghost use Rattle.admission.specs.Endings.{GreaterLimitDecides, NoLimitOfReads, OutOfReadsOnly, OutOfStepsOnly, StoppedOnly};
ghost use Rattle.admission.specs.OneAnswer.{FindingsHaveOneResult, ReviewHasOneResult};
ghost use Rattle.admission.specs.RootValues.{DocumentsHaveValues, GivenHaveValues};
ghost use Rattle.admission.specs.WideCases.{WideCasesDecide, WideReviewsAnswer};

use crate::gate::Gate;
use bpf_machine::laws::{limits_hold, starts_are_tables, stops_once};
use policy_glue::laws::compiles_once;
use value_store::laws::values_are_as_said;
use wide_policy::wide_policies_decide;

/// Within the same limits a review has one result, its response or its refusal, unless an
/// allocation fails.
#[tactic(auto, using(crate::proofs::OneReview::one_review))]
pub fn reviews_once()
    ensures { ReviewHasOneResult }
{
    compiles_once();
}

/// Within the same limits a review has one list of findings at most, or one refusal, apart from
/// allocations that fail.
#[tactic(auto, using(crate::proofs::OneReview::one_list))]
pub fn findings_once()
    ensures { FindingsHaveOneResult }
{
    compiles_once();
}

/// A run within limits has one end: the program stops, its steps are taken, or its next call would
/// read too much. With no limit of reads the end is by the state after its steps. A greater limit of
/// reads changes no other end.
pub fn runs_end_once()
    ensures steps { OutOfStepsOnly }
    ensures reads { OutOfReadsOnly }
    ensures stopped { StoppedOnly }
    ensures unlimited { NoLimitOfReads }
    ensures greater { GreaterLimitDecides }
{
    limits_hold();
    stops_once();
}

/// A policy in the wide language decides a review as its wide expressions mean, and a reply to the
/// review is the one for that verdict.
#[tactic(auto, using(crate::proofs::WideCases::cases_decide, crate::proofs::WideCases::reviews_answer))]
pub fn wide_cases_decide()
    ensures decides { WideCasesDecide }
    ensures answers { WideReviewsAnswer }
{
    wide_policies_decide();
}

/// Five documents that are not refused give roots with values on which the program of a policy
/// decides. So do the documents of a review, a namespace and the params.
pub fn roots_have_values()
    ensures documents { DocumentsHaveValues }
    ensures given { GivenHaveValues }
{
    starts_are_tables();
    values_are_as_said();
}

/// A gate may be sent to another thread: it is `Send`.
pub fn gates_may_be_sent(gate: Gate) -> Gate
    ensures { result ≡ gate }
{
    sent(gate)
}

/// Returns the value, whose type may be sent to another thread.
fn sent<T: Send>(value: T) -> T
    ensures { result ≡ value }
{
    value
}
