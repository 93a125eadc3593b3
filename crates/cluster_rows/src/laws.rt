//! Laws of the definitions. Each is the clause of a function that does nothing.
ghost use Rattle.cluster_rows.specs.ParamOrder.{ParamsAreByName};
ghost use Rattle.cluster_rows.specs.Status.{ClusterAnswersPassIfAllowed, RefusalsDoNotPass, ResponsesPassIfAllowed};

/// The params of a binding are taken in the order of their names.
pub fn params_are_by_name()
    ensures { ParamsAreByName }
{}

/// An answer passes, as the status of `gatekeeper --status` takes it, exactly if the decision allows the request. A
/// refusal does not pass.
#[tactic(auto, using(crate::proofs::Status::responses, crate::proofs::Status::refusals, crate::proofs::Status::cluster_answers))]
pub fn answers_pass_if_allowed()
    ensures responses { ResponsesPassIfAllowed }
    ensures refusals { RefusalsDoNotPass }
    ensures cluster { ClusterAnswersPassIfAllowed }
{}
