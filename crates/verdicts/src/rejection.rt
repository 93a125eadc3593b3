//! Rejections of requests.

ghost use Rattle.std.specs.Prelude.{◌≡◌, IfOk};
ghost use Rattle.verdicts.specs.Rejections.{rejection_view};

use crate::reason::Reason;
use std::alloc::AllocError;

/// Why a policy rejects a request.
#[derive(Debug, Drop)]
pub struct Rejection {
    /// The messages of the denials, joined with `; `.
    pub message: String,
    /// The reason of the first denial.
    pub reason: Reason,
}

impl Rejection {
    /// A copy of the rejection.
    pub(crate) fn copy(&self) -> Result<Rejection, AllocError>
        ensures { IfOk result (λ o. rejection_view o ≡ rejection_view self.now) }
    {
        let message = self.message.clone()?;
        let reason = self.reason;
        Ok(Rejection { message, reason })
    }
}
