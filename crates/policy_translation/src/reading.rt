//! Reads a policy whose translation compiles.
ghost use Rattle.policy_translation.specs.Translations.{ReadsTranslated};

use admission::{MessageRule, WideRefusal};
use policy_glue::compile;
use std::alloc::Global;
use wide_policy::WidePolicy;

/// The policy in a document, whose translation compiles.
///
/// # Errors
///
/// `Unread` if the document is not a policy in the wide language, `Uncompiled` if its translation is
/// not compiled. `Memory` if an allocation fails; the contract then states nothing of the policy.
pub fn read_translated(
    alloc: Global,
    document: &[u8],
    rule: MessageRule,
) -> Result<WidePolicy, WideRefusal>
    ensures { ReadsTranslated rule document.now result }
{
    let policy = WidePolicy::read(alloc, document, rule)?;
    let _image = compile(alloc, &policy.profile)?;
    Ok(policy)
}
