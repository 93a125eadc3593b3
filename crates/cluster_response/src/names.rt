//! Names that are shown.
ghost use Rattle.std.specs.Prelude.{◌≡◌, IfOk, option_map, string_bytes};
ghost use Rattle.serde_json.specs.View.{view};
ghost use Rattle.admission_documents.specs.Requests.{request_view};
ghost use Rattle.admission_match.specs.Requests.{resource_view};
ghost use Rattle.cluster_response.specs.Messages.{name_given, name_in_metadata, name_in_object, or_if_absent, or_text, shown_name, shown_resource};

use admission_documents::Request;
use admission_match::GroupVersionResource;
use json_fields::{field, text};
use serde_json::Value;
use std::alloc::{AllocError, Global};

/// The resource with its group, if it has one.
pub(crate) fn shown_resource(
    alloc: Global,
    resource: &GroupVersionResource<'_>,
) -> Result<String, AllocError>
    ensures { IfOk result (λ t. string_bytes t ≡ shown_resource (resource_view resource.now)) }
{
    if resource.group.is_empty() {
        return String::from_str(alloc, resource.resource);
    }
    [resource.resource, ".", resource.group].concat(alloc)
}

/// The name of the request, or else the one in its object.
pub(crate) fn shown_name<'a>(request: &Request<'a>) -> &'a str
    ensures { result.now ≡ shown_name (request_view request.now) }
{
    or_text(request.attributes.name, name_in_object(request.object))
}

fn name_in_object<'a>(object: Option<&'a Value>) -> &'a str
    ensures { result.now ≡ name_in_object (option_map (λ v. view v.now) object.entry) }
{
    match object {
        Some(object) => name_in_metadata(field(object, "metadata")),
        None => "Unknown",
    }
}

fn name_in_metadata<'a>(metadata: Option<&'a Value>) -> &'a str
    ensures { result.now ≡ name_in_metadata (option_map (λ v. view v.now) metadata.entry) }
{
    match metadata {
        Some(metadata) => name_given(metadata),
        None => "Unknown/errorGettingName",
    }
}

#[tactic(auto, unfolding(crate::specs::Messages::name_given))]
fn name_given<'a>(metadata: &'a Value) -> &'a str
    ensures { result.now ≡ name_given (view metadata.now) }
{
    let prefix = or_if_absent(text(field(metadata, "generateName")), "Unknown");
    or_if_absent(text(field(metadata, "name")), prefix)
}

fn or_if_absent<'a>(text: Option<&'a str>, other: &'a str) -> &'a str
    ensures { result.now ≡ or_if_absent (option_map (λ s. s.now) text.entry) other.now }
{
    match text {
        Some(text) => or_text(text, other),
        None => other,
    }
}

fn or_text<'a>(text: &'a str, other: &'a str) -> &'a str
    ensures { result.now ≡ or_text text.now other.now }
{
    if text.is_empty() { other } else { text }
}
