//! Failures that are audited.
ghost use Rattle.std.specs.Prelude.{◌≡◌, IfOk, string_bytes};

use cluster_state::{Action, Binding};
use std::alloc::{AllocError, Global};
use verdicts::Finding;

/// A failure that a binding audits.
#[derive(Debug, Drop)]
pub(crate) struct Audit {
    pub(crate) policy: String,
    pub(crate) binding: String,
    /// The place of the validation in the policy.
    pub(crate) index: u64,
    pub(crate) message: String,
    /// All actions of the binding.
    pub(crate) actions: Vec<Action>,
}

impl Audit {
    ghost use Rattle.cluster_response.specs.Events.{audit_view};

    pub(crate) fn new(
        alloc: Global,
        policy: &str,
        binding: &Binding<'_>,
        finding: &Finding,
    ) -> Result<Audit, AllocError>
        ensures { IfOk result (λ a. audit_view a ≡ record {
          policy = policy.now;
          binding = binding.now.name.now;
          index = finding.now.index;
          message = string_bytes finding.now.message;
          actions = binding.now.actions.items;
        }) }
    {
        let policy = String::from_str(alloc, policy)?;
        let name = String::from_str(alloc, binding.name)?;
        let message = String::from_str(alloc, finding.message.as_str())?;
        let actions = Vec::from_slice(alloc, &binding.actions)?;
        Ok(Audit {
            policy,
            binding: name,
            index: finding.index,
            message,
            actions,
        })
    }
}
