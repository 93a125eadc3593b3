//! Labels of policies.
ghost use Rattle.std.specs.Prelude.{◌≡◌, IfOk};
ghost use Rattle.gatekeeper_runner.specs.Policies.Together.{is_under_fail};
ghost use Rattle.gatekeeper_runner.specs.Refusals.{label_view};

use std::alloc::{AllocError, Global};

/// What a refusal shows about the policy that caused it.
#[derive(Drop)]
pub struct PolicyLabel {
    /// Its `metadata.name`, or else the name of its file.
    pub name: String,
    /// Its `failurePolicy`.
    pub failure_policy: String,
}

impl PolicyLabel {
    /// Whether the failure policy is `Fail`.
    pub fn is_under_fail(&self) -> bool
        ensures { result ≡ is_under_fail (label_view self.now) }
    {
        self.failure_policy.as_str() == "Fail"
    }

    /// A copy of the label.
    pub fn copy(&self, alloc: Global) -> Result<PolicyLabel, AllocError>
        ensures { IfOk result (λ l. label_view l ≡ label_view self.now) }
    {
        Ok(PolicyLabel {
            name: String::from_str(alloc, self.name.as_str())?,
            failure_policy: String::from_str(alloc, self.failure_policy.as_str())?,
        })
    }
}
