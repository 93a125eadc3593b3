//! Policies with their images.
ghost use Rattle.std.specs.Prelude.{IfOk};
ghost use Rattle.policy_glue.specs.OneImage.{OneImage};
ghost use Rattle.admission.specs.Deciding.{CompilesDocument};

use crate::policy_refusal::PolicyRefusal;
use loader::Image;
use policy_glue::{Policy, compile};
use std::alloc::Global;

/// A policy, and the image of its program.
#[derive(Drop)]
pub struct PolicyAndImage {
    pub policy: Policy,
    pub image: Image,
}

/// Parses and compiles the policy in a document.
pub fn compile_document(alloc: Global, document: &[u8]) -> Result<PolicyAndImage, PolicyRefusal>
    ensures compiles { CompilesDocument document.now result }
    ensures one { IfOk result (λ c. OneImage c.policy c.image) }
{
    let policy = Policy::read(alloc, document)?;
    let image = compile(alloc, &policy)?;
    Ok(PolicyAndImage { policy, image })
}
