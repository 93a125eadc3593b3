//! Labels of policies, read from their documents.
ghost use Rattle.std.specs.Prelude.{◌≡◌, string_bytes, unwrap_or, IfOk};
ghost use Rattle.review_tables.specs.MemberText.{text_at};
ghost use Rattle.admission.specs.declared.language.Language.{Language};
ghost use Rattle.policy_glue.specs.Documents.{document_of};
ghost use Rattle.gatekeeper_runner.specs.Policies.Together.{label_of};
ghost use Rattle.gatekeeper_runner.specs.Refusals.{label_view};

use crate::policy_label::PolicyLabel;
use review_tables::text_at;
use std::alloc::{AllocError, Global};

/// The label of the policy in this document. `file` is the name of its file.
pub fn label_of(alloc: Global, file: &str, document: &[u8]) -> Result<PolicyLabel, AllocError>
    ensures { (language : Language) → IfOk result (λ l. label_view l ≡ label_of (record { file = file.now; language = language; document = document.now })) }
{
    Ok(PolicyLabel {
        name: text_or(alloc, document, "metadata", "name", file)?,
        failure_policy: text_or(alloc, document, "spec", "failurePolicy", "Fail")?,
    })
}

/// The text at `document[outer][inner]`, or else the other.
fn text_or(
    alloc: Global,
    document: &[u8],
    outer: &str,
    inner: &str,
    other: &str,
) -> Result<String, AllocError>
    ensures { IfOk result (λ s. string_bytes s ≡ unwrap_or (text_at outer.now inner.now (document_of document.now)) other.now) }
{
    match text_at(alloc, document, outer, inner)? {
        Some(text) => Ok(text),
        None => String::from_str(alloc, other),
    }
}
