//! Clusters.
ghost use Rattle.std.specs.Prelude.{IfOk, option_map};
ghost use Rattle.admission_documents.specs.Requests.{request_view};
ghost use Rattle.policy_glue.specs.OneImage.{OneImage};
ghost use Rattle.admission.specs.declared.language.Language.{Language as InLanguage};
ghost use Rattle.cluster_state.specs.Params.{namespace_named};
ghost use Rattle.cluster_state.specs.State.{state_view, ClusterState};
ghost use Rattle.cluster_gate.specs.Dispatch.{policies_asked, DecidesInCluster};
ghost use Rattle.cluster_gate.specs.Gates.{AreGatesFor, ClusterOpens, IsClusterFor};
ghost use Rattle.cluster_gate.specs.Beside.{IsBesideIf};
ghost use Rattle.cluster_gate.specs.Running.{AnswersCase, GivesEvents};
ghost use Rattle.std.specs.Prelude.{◌≡◌, Some};
ghost use Rattle.serde_json.specs.View.{view};
ghost use Rattle.value_store.specs.Documents.{document_of};

use crate::asking::ask;
use crate::case::Case;
use crate::cluster_error::ClusterError;
use crate::kept_bases::KeptBases;
use crate::opening::open_gates;
use crate::policy_gate::PolicyGate;
use crate::review_request::review_request;
use admission::{Language, Limits};
use admission_documents::Request;
use cluster_response::{Events, response};
use cluster_state::{State, parse};
use serde_json::Value;
use std::alloc::{AllocError, Global};
use std::rc::Rc;

/// The state of a cluster, and its bound policies, each compiled or blocked. No review changes it.
#[derive(Drop)]
pub struct Cluster<'s, 'a> {
    pub(crate) alloc: Global,
    pub(crate) state: &'s State<'a>,
    /// In the order of the policies' names.
    pub(crate) gates: Vec<PolicyGate<'s, 'a>>,
    pub(crate) kept: Rc<KeptBases<'a>>,
}

impl<'s, 'a> Cluster<'s, 'a> {
    /// Compiles the policies of the state that have a binding, each read in this language. With
    /// `partial` those that are blocked stay, and the requests that their constraints match are not
    /// decided, unless they are denied.
    ///
    /// # Errors
    ///
    /// The first policy by name that is blocked, unless `partial`. `Memory` if an allocation fails,
    /// which implies nothing about the rest.
    pub fn new(
        alloc: Global,
        state: &'s State<'a>,
        language: Language,
        partial: bool,
    ) -> Result<Cluster<'s, 'a>, ClusterError>
        ensures { ClusterOpens language (state_view state.now) partial result }
    {
        let gates = open_gates(alloc, state, language, partial)?;
        Ok(Cluster {
            alloc,
            state,
            gates,
            kept: KeptBases::shared(alloc)?,
        })
    }

    /// The bound policies, in the order of their names.
    pub fn policies(&self) -> &[PolicyGate<'s, 'a>]
        ensures { (l : InLanguage) (s : ClusterState) → IsClusterFor l s self.now → AreGatesFor l s s.policies result.now }
    {
        self.gates.as_slice()
    }

    /// The text that answers a review (AdmissionReview, `admission.k8s.io/v1`), in which each
    /// evaluation of a policy has these limits for itself; none if the bytes are no review. The
    /// error is a failed allocation, which implies nothing about the review.
    pub fn decide(&self, review: &[u8], limits: Limits) -> Result<Option<Vec<u8>>, AllocError>
        ensures { IfOk result (λ o. (l : InLanguage) (s : ClusterState) → IsClusterFor l s self.now → DecidesInCluster l OneImage s review.now limits (option_map (λ b. b.items) o)) }
    {
        match parse(self.alloc, review)? {
            Some(document) => self.decide_document(review, &document, limits),
            None => Ok(None),
        }
    }

    /// The answer to the review with this document.
    fn decide_document<'x>(
        &self,
        review: &'x [u8],
        document: &'x Value,
        limits: Limits,
    ) -> Result<Option<Vec<u8>>, AllocError>
        ensures { IfOk result (λ o. (l : InLanguage) (s : ClusterState) → IsClusterFor l s self.now → document_of review.now ≡ Some (view document.now)
            → DecidesInCluster l OneImage s review.now limits (option_map (λ b. b.items) o)) }
    {
        match review_request(document) {
            None => Ok(None),
            Some(found) => match Request::of(found.document) {
                None => Ok(None),
                Some(request) => {
                    let opened = self.opened(review, &request)?;
                    let opened = opened.as_ref();
                    let case = Case {
                        review,
                        request: &request,
                        limits,
                        opened,
                        place: self.place(&request, opened),
                    };
                    Ok(Some(self.answer(&case, found.uid)?))
                }
            },
        }
    }

    /// The answer to a request with this uid.
    fn answer(&self, case: &Case<'_, '_, 'a>, uid: &str) -> Result<Vec<u8>, AllocError>
        requires { IsBesideIf case.now.opened case.now.place (namespace_named (request_view case.now.request.now).attributes.namespace (state_view self.now.state.now).objects) }
        ensures { IfOk result (λ b. (l : InLanguage) (s : ClusterState) → IsClusterFor l s self.now → AnswersCase l OneImage s case.now.review.now case.now.limits (request_view case.now.request.now) uid.now b.items) }
    {
        let events = self.events(case)?;
        self.keep_wanted(case);
        let text = response(self.alloc, case.request, uid, &events)?;
        Ok(text)
    }

    /// The events of the dispatch of a request.
    fn events(&self, case: &Case<'_, '_, 'a>) -> Result<Events, AllocError>
        requires { IsBesideIf case.now.opened case.now.place (namespace_named (request_view case.now.request.now).attributes.namespace (state_view self.now.state.now).objects) }
        ensures { IfOk result (λ e. (l : InLanguage) (s : ClusterState) → IsClusterFor l s self.now
            → GivesEvents l OneImage s case.now.review.now case.now.limits (request_view case.now.request.now) (policies_asked s (request_view case.now.request.now)) e) }
    {
        let request = case.request;
        if request.attributes.resource.is_exempt() {
            Ok(Events::new(self.alloc))
        } else {
            self.dispatch(case)
        }
    }

    /// The events of all policies, up to the one that ends the dispatch.
    fn dispatch(&self, case: &Case<'_, '_, 'a>) -> Result<Events, AllocError>
        requires { IsBesideIf case.now.opened case.now.place (namespace_named (request_view case.now.request.now).attributes.namespace (state_view self.now.state.now).objects) }
        ensures { IfOk result (λ e. (l : InLanguage) (s : ClusterState) → IsClusterFor l s self.now
            → GivesEvents l OneImage s case.now.review.now case.now.limits (request_view case.now.request.now) s.policies e) }
    {
        let mut events = Events::new(self.alloc);
        let gates = self.gates.as_slice();
        for gate in gates {
            if ask(self.alloc, self.state, gate, case, &mut events)? {
                return Ok(events);
            }
        }
        Ok(events)
    }
}
