//! What is asked of a gate.
ghost use Rattle.std.specs.Prelude.{◌≡◌, ℕ, List, option_map};
ghost use Rattle.admission.specs.Deciding.{answer_view, IsGateOn, Reviews};
ghost use Rattle.admission.specs.Standing.{exactly, RunAgrees};
ghost use Rattle.admission.specs.declared.language.Language.{Language};
ghost use Rattle.celbpf_calls.specs.Calls.{documents_asked, given};

use admission::{Gate, Limits, Reply, RunError};

/// A review with its documents, of which no bytes mean that there is none, and what the policy's
/// program may take.
#[derive(Clone, Copy)]
pub struct Asked<'a> {
    pub review: &'a [u8],
    pub namespace: &'a [u8],
    pub params: &'a [u8],
    pub limits: Limits,
}

impl<'a> Asked<'a> {
    /// The decision of a gate.
    pub fn decided_by(self, gate: &Gate) -> Result<Reply, RunError>
        ensures reviews { (language : Language) (policy : List ℕ) → IsGateOn language policy gate.now → Reviews (documents_asked language policy self.entry) self.entry.limits (answer_view result) }
        ensures runs { (language : Language) (policy : List ℕ) → IsGateOn language policy gate.now → RunAgrees (exactly gate.now.image) (documents_asked language policy self.entry) self.entry.limits (answer_view result) }
    {
        let namespace = given(self.namespace);
        let params = given(self.params);
        gate.decide(self.review, namespace, params, self.limits)
    }
}

/// The document, of which no bytes mean that there is none.
pub fn given(document: &[u8]) -> Option<&[u8]>
    ensures { option_map (λ b. b.now) result ≡ given document.now }
{
    if document.is_empty() {
        None
    } else {
        Some(document)
    }
}
