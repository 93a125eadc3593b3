//! Reviews under policies.
ghost use Rattle.std.specs.Prelude.{◌≢◌, Err};
ghost use Rattle.policy_glue.specs.OneImage.{OneImage};
ghost use Rattle.admission.specs.Deciding.{answer_view, Reviews};
ghost use Rattle.admission.specs.Lent.{documents_lent};
ghost use Rattle.admission.specs.Standing.{steps_alone, RunAgrees};
ghost use Rattle.admission.specs.declared.run_error.RunError.TheVariants as run_error;

use crate::gate::Gate;
use crate::limits::Limits;
use crate::reply::Reply;
use crate::run_error::RunError;
use std::alloc::Global;

/// The response to a review (AdmissionReview, `admission.k8s.io/v1`) under a policy
/// (ValidatingAdmissionPolicy, `admissionregistration.k8s.io/v1`). The policy's program may take at
/// most `n` steps. Roots without a document are null.
///
/// # Errors
///
/// The first refusal. `PolicyRefused` refuses the policy; `ReviewRefused` and
/// `NamespaceOrParamsRefused` refuse the documents, as in `roots`. `OutOfSteps` exactly if the
/// program still runs after `n` steps, `OverLimit` exactly if it was stopped by then. `Memory` if
/// an allocation fails, which says nothing about the rest.
pub fn review(
    alloc: Global,
    policy: &[u8],
    review: &[u8],
    namespace: Option<&[u8]>,
    params: Option<&[u8]>,
    n: u64,
) -> Result<Reply, RunError>
    ensures reviews { Reviews (documents_lent policy.now review.now namespace.entry params.entry) (steps_alone n) (answer_view result) }
    // The run of the policy's one image matches the result.
    ensures runs { RunAgrees OneImage (documents_lent policy.now review.now namespace.entry params.entry) (steps_alone n) (answer_view result) }
    // No limit of reads ends the run.
    ensures unlimited { result ≢ Err run_error.OutOfReads }
{
    let gate = Gate::new(alloc, policy)?;
    gate.decide(review, namespace, params, Limits::of_steps(n))
}
