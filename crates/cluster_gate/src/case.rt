//! Reviews as policies are asked about them.

ghost use Rattle.std.specs.Prelude.{◌≡◌, IfSome};
ghost use Rattle.std.proofs.Props.{props};

use crate::namespace_place::NamespacePlace;
use crate::opened_review::OpenedReview;
use admission::Limits;
use admission_documents::Request;

/// A review, its request, and the limits of each evaluation.
#[derive(Drop)]
pub(crate) struct Case<'c, 'x, 's> {
    pub(crate) review: &'x [u8],
    pub(crate) request: &'c Request<'x>,
    pub(crate) limits: Limits,
    /// The review, if it was read for all evaluations.
    pub(crate) opened: Option<&'c OpenedReview<'s, 'x>>,
    /// Where the request's namespace is beside the review, if it was read.
    pub(crate) place: Option<NamespacePlace>,
    ghost same: { IfSome opened (λ o. o.now.review ≡ review.now) } by { Prim.hlevel props },
}
