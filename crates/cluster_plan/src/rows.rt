//! Lists written out, and the steps of their policy with requests.
ghost use Rattle.cluster_plan.specs.Rows.{StepRowsHold};

/// Steps of a policy and a binding.
pub fn step_rows_hold()
    ensures { StepRowsHold }
{}
