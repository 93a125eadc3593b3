//! Reviews that are refused.
ghost use Rattle.std.specs.Prelude.{◌≡◌};
ghost use Rattle.gatekeeper_runner.specs.Policies.Together.{is_by_fail};
ghost use Rattle.gatekeeper_runner.specs.Refusals.{refused_view};

use crate::policy_label::PolicyLabel;
use admission::RunError;

/// Why a review is refused.
#[derive(Drop)]
pub struct Refused {
    pub error: RunError,
    /// The policy that caused it. `None` if the review is refused before any policy is asked.
    pub policy: Option<PolicyLabel>,
}

impl Refused {
    /// Whether a policy under `Fail` refuses.
    pub fn is_by_fail(&self) -> bool
        ensures { result ≡ is_by_fail (refused_view self.now) }
    {
        match &self.policy {
            Some(label) => label.is_under_fail(),
            None => false,
        }
    }
}
