//! The values of the roots of a review.
ghost use Rattle.std.specs.Prelude.{◌≡◌, option_map};
ghost use Rattle.value_table.specs.Held.{held_contents};
ghost use Rattle.admission.specs.Reviews.{contents_given, ReturnsDue};

use crate::run_error::RunError;
use review_tables::{table_of_review, table_without_review};
use std::alloc::Global;
use value_store::ValueStore;
use value_table::Table;

/// The table of the roots of a review (AdmissionReview, `admission.k8s.io/v1`): object and
/// oldObject of its request, the params, the namespace's object, and the rest of the request. A
/// missing document gives null.
///
/// # Errors
///
/// The first refusal. The review's form is checked first, then the namespace, the params and the
/// roots. `ReviewRefused` if the review is refused or the roots are too large together,
/// `NamespaceOrParamsRefused` if the namespace or the params are refused. `Memory` if an allocation
/// fails, which says nothing about the documents.
pub fn roots(
    alloc: Global,
    review: Option<&[u8]>,
    namespace: Option<&[u8]>,
    params: Option<&[u8]>,
) -> Result<Table, RunError>
    ensures { let given = contents_given (option_map (λ b. b.now) review.entry) (option_map (λ b. b.now) namespace.entry) (option_map (λ b. b.now) params.entry) in
        ReturnsDue held_contents given result }
{
    match review {
        Some(review) => {
            let (table, _) = table_of_review(alloc, review, namespace, params)?;
            Ok(table)
        }
        None => Ok(table_without_review(alloc, namespace, params)?),
    }
}
