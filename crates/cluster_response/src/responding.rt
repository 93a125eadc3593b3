//! The response by the events of a dispatch.
ghost use Rattle.std.specs.Prelude.{◌≡◌, [], IfOk, List, map, option_map, string_bytes};
ghost use Rattle.serde_json.specs.Data as json;
ghost use Rattle.serde_json.specs.View.{view};
ghost use Rattle.admission_documents.specs.Requests.{request_view};
ghost use Rattle.verdicts.specs.Response.{review_tree, status_tree};
ghost use Rattle.cluster_response.specs.Events.{Event, KeepsEvents, audit_view, denial_view, events_view, summary_of, undecided_view};
ghost use Rattle.cluster_response.specs.Members.{status_object};
ghost use Rattle.cluster_response.specs.Response.{annotations_tree, answer_tree, cluster_response, decision_from, decision_tree, denial_status, if_texts, not_found_status, status_of, summary_response, texts_tree, undecided_tree};

use crate::annotation::annotation_text;
use crate::audit::Audit;
use crate::denial::Denial;
use crate::events::Events;
use crate::members::{no_members, object, with_flag, with_member, with_number, with_text};
use crate::messages::denied_message;
use crate::undecided::Undecided;
use admission_documents::Request;
use cluster_plan::absent_text;
use serde_json::{Value, json};
use std::alloc::{AllocError, Global};
use verdicts::{Reason, response_text};

/// The text of the answer to a request with this uid, by the events of its dispatch: the response
/// (AdmissionReview, `admission.k8s.io/v1`), or which policy does not decide and why. The end
/// decides first, then the first denial, then the first policy under `Fail` that does not decide,
/// or else the first.
#[tactic(auto, unfolding(crate::specs::Response::cluster_response))]
pub fn response(
    alloc: Global,
    request: &Request<'_>,
    uid: &str,
    events: &Events,
) -> Result<Vec<u8>, AllocError>
    ensures { (es : List Event) → KeepsEvents events.now es → IfOk result
        (λ bytes. bytes.items ≡ cluster_response (request_view request.now) uid.now es) }
{
    summary_text(alloc, request, uid, events)
}

/// The text by the events that count. Usually none does.
fn summary_text(
    alloc: Global,
    request: &Request<'_>,
    uid: &str,
    events: &Events,
) -> Result<Vec<u8>, AllocError>
    ensures { IfOk result (λ bytes. bytes.items ≡ summary_response (request_view request.now) uid.now (events_view events.now)) }
{
    if events.is_empty() {
        return allowed_text(alloc, request, uid);
    }
    answer_text(alloc, request, uid, events)
}

/// The text if there are no events.
#[tactic(auto, unfolding(verdicts::specs::Rejections::response_text))]
fn allowed_text(alloc: Global, _request: &Request<'_>, uid: &str) -> Result<Vec<u8>, AllocError>
    ensures { IfOk result (λ bytes. bytes.items ≡ summary_response (request_view _request.now) uid.now (summary_of [])) }
{
    response_text(alloc, &None, uid)
}

/// The text of the answer's tree.
fn answer_text(
    alloc: Global,
    request: &Request<'_>,
    uid: &str,
    events: &Events,
) -> Result<Vec<u8>, AllocError>
    ensures { IfOk result (λ bytes. bytes.items ≡ summary_response (request_view request.now) uid.now (events_view events.now)) }
{
    let answer = answer(alloc, request, uid, events)?;
    answer.to_vec(alloc)
}

fn answer(
    alloc: Global,
    request: &Request<'_>,
    uid: &str,
    events: &Events,
) -> Result<Value, AllocError>
    ensures { IfOk result (λ v. view v ≡ answer_tree (request_view request.now) uid.now (events_view events.now)) }
{
    let status = status_of(alloc, request, events)?;
    match status {
        Some(status) => decided(alloc, Some(status), uid, events),
        None => match &events.undecided {
            Some(undecided) => undecided_value(alloc, undecided, uid),
            None => decided(alloc, None, uid, events),
        },
    }
}

/// Why the request is not allowed.
fn status_of(
    alloc: Global,
    request: &Request<'_>,
    events: &Events,
) -> Result<Option<Value>, AllocError>
    ensures { IfOk result (λ o. option_map view o ≡ status_of (request_view request.now) (events_view events.now)) }
{
    if events.ended {
        return Ok(Some(not_found_status(alloc, request.attributes.namespace)?));
    }
    match &events.denial {
        Some(denial) => Ok(Some(denial_status(alloc, request, denial)?)),
        None => Ok(None),
    }
}

fn not_found_status(alloc: Global, namespace: &str) -> Result<Value, AllocError>
    ensures { IfOk result (λ v. view v ≡ not_found_status namespace.now) }
{
    let message = absent_text(alloc, namespace)?;
    status_object(alloc, 404, message.as_str(), "NotFound")
}

fn denial_status(alloc: Global, request: &Request<'_>, denial: &Denial) -> Result<Value, AllocError>
    ensures { IfOk result (λ v. view v ≡ denial_status (request_view request.now) (denial_view denial.now)) }
{
    let message = denied_message(alloc, request, denial)?;
    status(alloc, message.as_str(), denial.reason)
}

fn status(alloc: Global, text: &str, reason: Reason) -> Result<Value, AllocError>
    ensures { IfOk result (λ v. view v ≡ status_tree text.now reason) }
{
    status_object(alloc, reason.code(), text, reason.name())
}

/// The status with this code, message and reason.
fn status_object(alloc: Global, code: u64, text: &str, reason: &str) -> Result<Value, AllocError>
    ensures { IfOk result (λ v. view v ≡ status_object code text.now reason.now) }
{
    let coded = with_number(alloc, no_members(alloc), "code", code);
    let told = with_text(alloc, coded, "message", text);
    object(with_text(alloc, told, "reason", reason))
}

fn undecided_value(alloc: Global, undecided: &Undecided, uid: &str) -> Result<Value, AllocError>
    ensures { IfOk result (λ v. view v ≡ undecided_tree (undecided_view undecided.now) uid.now) }
{
    let named = with_text(
        alloc,
        no_members(alloc),
        "policy",
        undecided.policy.as_str(),
    );
    let refused = with_text(alloc, named, "refused", undecided.refusal.code());
    object(with_text(alloc, refused, "uid", uid))
}

/// The review with the decision.
fn decided(
    alloc: Global,
    status: Option<Value>,
    uid: &str,
    events: &Events,
) -> Result<Value, AllocError>
    ensures { IfOk result (λ v. view v
        ≡ review_tree (decision_tree (option_map view status) uid.now (events_view events.now))) }
{
    let annotations = annotations(alloc, &events.audit)?;
    let warnings = if_texts(alloc, events.warnings.as_slice())?;
    let decision = decision(alloc, annotations, status, uid, warnings)?;
    review(alloc, decision)
}

fn annotations(alloc: Global, audit: &Option<Audit>) -> Result<Option<Value>, AllocError>
    ensures { IfOk result (λ o. option_map view o ≡ option_map annotations_tree (option_map audit_view audit.now)) }
{
    match audit {
        Some(audit) => Ok(Some(annotation(alloc, audit)?)),
        None => Ok(None),
    }
}

fn annotation(alloc: Global, audit: &Audit) -> Result<Value, AllocError>
    ensures { IfOk result (λ v. view v ≡ annotations_tree (audit_view audit.now)) }
{
    let value = annotation_text(alloc, audit)?;
    let name = "validation.policy.admission.k8s.io/validation_failure";
    object(with_text(alloc, no_members(alloc), name, value.as_str()))
}

fn if_texts(alloc: Global, texts: &[String]) -> Result<Option<Value>, AllocError>
    ensures { IfOk result (λ o. option_map view o ≡ if_texts (map string_bytes texts.now)) }
{
    match texts {
        [] => Ok(None),
        _ => Ok(Some(texts_value(alloc, texts)?)),
    }
}

fn texts_value(alloc: Global, texts: &[String]) -> Result<Value, AllocError>
    ensures { IfOk result (λ v. view v ≡ texts_tree (map string_bytes texts.now)) }
{
    Ok(Value::Array(text_values(alloc, texts)?))
}

fn text_values(alloc: Global, texts: &[String]) -> Result<Vec<Value>, AllocError>
    ensures { IfOk result (λ v. map view v.items ≡ map json.string (map string_bytes texts.now)) }
{
    let mut values = Vec::new(alloc);
    for text in texts {
        values.push(text_value(alloc, text)?)?;
    }
    Ok(values)
}

fn text_value(alloc: Global, text: &String) -> Result<Value, AllocError>
    ensures { IfOk result (λ v. view v ≡ json.string (string_bytes text.now)) }
{
    let text = text.as_str();
    json!(in alloc; text)
}

fn decision(
    alloc: Global,
    annotations: Option<Value>,
    status: Option<Value>,
    uid: &str,
    warnings: Option<Value>,
) -> Result<Value, AllocError>
    ensures { IfOk result (λ v. view v
        ≡ decision_from (option_map view annotations) (option_map view status) uid.now (option_map view warnings)) }
{
    let decided = with_flag(alloc, no_members(alloc), "allowed", status.is_none());
    let annotated = with_member(alloc, decided, "auditAnnotations", annotations);
    let told = with_member(alloc, annotated, "status", status);
    let named = with_text(alloc, told, "uid", uid);
    object(with_member(alloc, named, "warnings", warnings))
}

#[tactic(auto, unfolding(verdicts::specs::Response::review_tree))]
fn review(alloc: Global, response: Value) -> Result<Value, AllocError>
    ensures { IfOk result (λ v. view v ≡ review_tree (view response)) }
{
    let versioned = with_text(
        alloc,
        no_members(alloc),
        "apiVersion",
        "admission.k8s.io/v1",
    );
    let named = with_text(alloc, versioned, "kind", "AdmissionReview");
    object(with_member(alloc, named, "response", Some(response)))
}
