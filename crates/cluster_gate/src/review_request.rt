//! The request of a review.
ghost use Rattle.std.specs.Prelude.{◌≡◌, codes, option_and_then, option_map, IfSome, Some};
ghost use Rattle.serde_json.specs.Data.{object, string};
ghost use Rattle.serde_json.specs.Find.{get_member};
ghost use Rattle.serde_json.specs.View.{view};
ghost use Rattle.value_store.specs.Reviews.{is_review, members_in, request_of};
ghost use Rattle.cluster_gate.specs.Dispatch.{request_document};

use json_fields::equals_string;
use serde_json::Value;

/// The request of a review, borrowed from its document.
#[derive(Clone, Copy, Debug, Drop)]
pub(crate) struct ReviewRequest<'a> {
    pub(crate) document: &'a Value,
    pub(crate) uid: &'a str,
}

/// The request in a document, if it is a review.
pub(crate) fn review_request<'a>(review: &'a Value) -> Option<ReviewRequest<'a>>
    ensures document { option_map (λ r. view r.document.now) result ≡ request_document (view review.now) }
    ensures uid { IfSome result (λ r. option_and_then (get_member (codes "uid")) (request_of (view review.now)) ≡ Some (string r.uid.now)) }
{
    if is_review(review) {
        request_in(review.get("request"))
    } else {
        None
    }
}

/// Whether the document is of the API and kind of reviews.
fn is_review(document: &Value) -> bool
    ensures { result ≡ is_review (view document.now) }
{
    let version = equals_string(document.get("apiVersion"), "admission.k8s.io/v1");
    let kind = equals_string(document.get("kind"), "AdmissionReview");
    version && kind
}

/// The request, if it is an object whose `uid` is a text.
fn request_in<'a>(value: Option<&'a Value>) -> Option<ReviewRequest<'a>>
    ensures document { option_map (λ r. view r.document.now) result ≡ option_map object (option_and_then members_in (option_map (λ v. view v.now) value.entry)) }
    ensures uid { IfSome result (λ r. option_and_then (get_member (codes "uid")) (option_and_then members_in (option_map (λ v. view v.now) value.entry)) ≡ Some (string r.uid.now)) }
{
    match value {
        Some(request) => with_uid(request),
        None => None,
    }
}

fn with_uid<'a>(request: &'a Value) -> Option<ReviewRequest<'a>>
    ensures document { option_map (λ r. view r.document.now) result ≡ option_map object (members_in (view request.now)) }
    ensures uid { IfSome result (λ r. option_and_then (get_member (codes "uid")) (members_in (view request.now)) ≡ Some (string r.uid.now)) }
{
    match request {
        Value::Object(_) => match request.get("uid") {
            Some(Value::String(uid)) => Some(ReviewRequest {
                document: request,
                uid: uid.as_str(),
            }),
            _ => None,
        },
        _ => None,
    }
}
