//! Policies in the wide language with their gates.
ghost use Rattle.admission.specs.Deciding.{OpensWideGate};
ghost use Rattle.std.specs.Prelude.{IfOk};
ghost use Rattle.policy_glue.specs.OneImage.{OneImage};

use crate::gate::Gate;
use crate::wide_refusal::WideRefusal;
use std::alloc::Global;
use wide_policy::{LeftOut, MessageRule, WidePolicy};

/// The gate of a policy in the wide language.
#[derive(Drop)]
pub struct WideGate {
    pub gate: Gate,
    /// The message expressions that are left out, in order.
    pub left_out: Vec<LeftOut>,
}

impl WideGate {
    /// Reads the policy in a document as clusters store it, translates its expressions and compiles
    /// it.
    ///
    /// # Errors
    ///
    /// `Unread` if the document is not a policy in the wide language, `Uncompiled` if its translation
    /// is not compiled. `Memory` if an allocation fails; the contract always allows it, and then
    /// states nothing of the policy.
    pub fn new(alloc: Global, policy: &[u8], rule: MessageRule) -> Result<WideGate, WideRefusal>
        ensures opens { OpensWideGate rule policy.now result }
        // Pins the image: there is only one that meets this clause.
        ensures one { IfOk result (λ g. OneImage g.gate.policy g.gate.image) }
    {
        let read = WidePolicy::read(alloc, policy, rule)?;
        let gate = Gate::of_translation(alloc, read.source, read.profile, read.wrapped)?;
        Ok(WideGate {
            gate,
            left_out: read.left_out,
        })
    }
}
