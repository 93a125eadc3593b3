//! Reads a review for all evaluations.

ghost use Rattle.std.specs.Prelude.{◌≡◌, IfOk, IfSome};
ghost use Rattle.admission_documents.specs.Requests.{request_view};
ghost use Rattle.cluster_state.specs.Params.{namespace_named};
ghost use Rattle.cluster_state.specs.State.{state_view};
ghost use Rattle.cluster_gate.specs.Beside.{IsAtIf, IsBesideIf};

use crate::case::Case;
use crate::cluster::Cluster;
use crate::namespace_place::NamespacePlace;
use crate::opened_review::OpenedReview;
use crate::standing::Standing;
use admission_documents::Request;
use admission_match::Answer;
use std::alloc::AllocError;

impl<'a> Cluster<'_, 'a> {
    /// The review, read for all evaluations, with the namespace of its request. None if there are
    /// no evaluations.
    pub(crate) fn opened<'r>(
        &self,
        review: &'r [u8],
        request: &Request<'_>,
    ) -> Result<Option<OpenedReview<'a, 'r>>, AllocError>
        ensures { IfOk result (λ o. IfSome o (λ r. r.review ≡ review.now)) }
    {
        if request.attributes.resource.is_exempt() || !self.evaluates(request) {
            return Ok(None);
        }
        let base = self.kept.base(self.state, request.attributes.namespace)?;
        base.open(review)
    }

    /// Where the request's namespace is beside the review, if it was read.
    pub(crate) fn place(
        &self,
        request: &Request<'_>,
        opened: Option<&OpenedReview<'a, '_>>,
    ) -> Option<NamespacePlace>
        ensures { IsBesideIf opened.entry result (namespace_named (request_view request.now).attributes.namespace (state_view self.now.state.now).objects) }
    {
        match opened {
            Some(opened) => self.place_in(opened, request.attributes.namespace),
            None => None,
        }
    }

    /// Where the namespace of this name is, if it was read.
    fn place_in(&self, opened: &OpenedReview<'a, '_>, name: &str) -> Option<NamespacePlace>
        ensures { IsAtIf opened.now result (namespace_named name.now (state_view self.now.state.now).objects) }
    {
        match self.state.namespace(name) {
            Some(document) => opened.namespace_place(self.alloc, document.value),
            None => None,
        }
    }

    /// Whether some policy is compiled and matches the request.
    fn evaluates(&self, request: &Request<'_>) -> bool {
        for gate in self.gates.as_slice() {
            if let Standing::Asked(_) = gate.standing {
                let constraints = &gate.asked.policy.constraints;
                if let Answer::Yes = constraints.matches(&request.attributes, self.state) {
                    return true;
                }
            }
        }
        false
    }

    /// Keeps the document that an evaluation had to read beside the review, for later reviews.
    pub(crate) fn keep_wanted(&self, case: &Case<'_, '_, 'a>) {
        if let Some(opened) = case.opened {
            if let Some(document) = opened.wanted.get() {
                let request = case.request;
                let name = request.attributes.namespace;
                // If it cannot be kept, it is read again.
                drop(self.kept.keep(name, document));
            }
        }
    }
}
