//! The request of a review.
ghost use Rattle.std.specs.Prelude.{◌≡◌, Some, option_map};
ghost use Rattle.serde_json.specs.View.{view};
ghost use Rattle.admission_documents.specs.Requests.{if_written, labels_if_metadata, object_of, operation_named, operation_of, request_in, request_view};
ghost use Rattle.admission_documents.specs.Selectors.{labels_view};

use crate::group_version_kind::GroupVersionKind;
use crate::object_labels::ObjectLabels;
use crate::target::Target;
use admission_match::{Attributes, Operation};
use json_fields::{field, text_or_empty};
use serde_json::Value;

/// The request of a review: what matching reads, and its objects. Borrowed from the document.
#[derive(Debug, Drop)]
pub struct Request<'a> {
    pub kind: GroupVersionKind<'a>,
    pub attributes: Attributes<'a, ObjectLabels<'a>>,
    pub object: Option<&'a Value>,
    pub old_object: Option<&'a Value>,
}

impl<'a> Request<'a> {
    /// Reads a review's `request`. `None` if a required field is absent or a field has the wrong
    /// type, if the operation is unknown, if an object to be written is absent, or if the request
    /// was converted for a webhook.
    #[tactic(auto, unfolding(crate::specs::Requests::request_in))]
    pub fn of(request: &'a Value) -> Option<Request<'a>>
        ensures { option_map request_view result ≡ request_in (view request.now) }
    {
        let target = Target::of(request)?;
        let name = text_or_empty(field(request, "name"))?;
        let namespace = text_or_empty(field(request, "namespace"))?;
        let operation = operation_of(field(request, "operation"))?;
        let object = written_object(operation, field(request, "object"))?;
        let old_object = object_of(field(request, "oldObject"))?;
        Some(Request {
            kind: target.kind,
            attributes: Attributes {
                resource: target.resource,
                subresource: target.subresource,
                name,
                namespace,
                operation,
                object: labels_if_metadata(object),
                old_object: labels_if_metadata(old_object),
            },
            object,
            old_object,
        })
    }
}

/// The operation, which is required.
#[tactic(auto, unfolding(crate::specs::Requests::operation_of))]
fn operation_of(value: Option<&Value>) -> Option<Operation>
    ensures { result ≡ operation_of (option_map (λ v. view v.now) value.entry) }
{
    match value {
        Some(Value::String(name)) => match name.as_str() {
            "CREATE" => Some(Operation::Create),
            "UPDATE" => Some(Operation::Update),
            "DELETE" => Some(Operation::Delete),
            "CONNECT" => Some(Operation::Connect),
            _ => None,
        },
        _ => None,
    }
}

/// An optional object.
fn object_of<'a>(value: Option<&'a Value>) -> Option<Option<&'a Value>>
    ensures { option_map (option_map (λ v. view v.now)) result ≡ object_of (option_map (λ v. view v.now) value.entry) }
{
    match value {
        None => Some(None),
        Some(Value::Object(_)) => Some(value),
        Some(_) => None,
    }
}

/// The object; it is required if the operation writes it.
fn written_object<'a>(operation: Operation, value: Option<&'a Value>) -> Option<Option<&'a Value>>
    ensures { option_map (option_map (λ v. view v.now)) result ≡ if_written operation (object_of (option_map (λ v. view v.now) value.entry)) }
{
    match object_of(value) {
        Some(Some(object)) => Some(Some(object)),
        Some(None) => match operation {
            Operation::Create | Operation::Update => None,
            Operation::Delete | Operation::Connect => Some(None),
        },
        None => None,
    }
}

/// The labels of the object, if it has metadata.
fn labels_if_metadata<'a>(object: Option<&'a Value>) -> Option<ObjectLabels<'a>>
    ensures { option_map labels_view result ≡ labels_if_metadata (option_map (λ v. view v.now) object.entry) }
{
    match object {
        Some(object) => labels_of_metadata(object),
        None => None,
    }
}

fn labels_of_metadata<'a>(object: &'a Value) -> Option<ObjectLabels<'a>>
    ensures { option_map labels_view result ≡ labels_if_metadata (Some (view object.now)) }
{
    match field(object, "metadata") {
        Some(_) => Some(ObjectLabels::of(object)),
        None => None,
    }
}
