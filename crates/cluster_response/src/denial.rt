//! Denials.
ghost use Rattle.std.specs.Prelude.{◌≡◌, IfOk, option_map, string_bytes};

use std::alloc::{AllocError, Global};
use verdicts::Reason;

/// A denial of a request by a policy.
#[derive(Debug, Drop)]
pub(crate) struct Denial {
    pub(crate) policy: String,
    /// The binding that denies. None if the policy itself is not configured.
    pub(crate) binding: Option<String>,
    pub(crate) message: String,
    pub(crate) reason: Reason,
}

impl Denial {
    ghost use Rattle.cluster_response.specs.Events.{denial_view};

    pub(crate) fn new(
        alloc: Global,
        policy: &str,
        binding: Option<&str>,
        message: &str,
        reason: Reason,
    ) -> Result<Denial, AllocError>
        ensures { IfOk result (λ d. denial_view d ≡ record {
          policy = policy.now;
          binding = option_map (λ s. s.now) binding.entry;
          message = message.now;
          reason = reason;
        }) }
    {
        let policy = String::from_str(alloc, policy)?;
        let binding = owned(alloc, binding)?;
        let message = String::from_str(alloc, message)?;
        Ok(Denial {
            policy,
            binding,
            message,
            reason,
        })
    }
}

fn owned(alloc: Global, text: Option<&str>) -> Result<Option<String>, AllocError>
    ensures { IfOk result (λ o. option_map string_bytes o ≡ option_map (λ s. s.now) text.entry) }
{
    match text {
        Some(text) => Ok(Some(String::from_str(alloc, text)?)),
        None => Ok(None),
    }
}
