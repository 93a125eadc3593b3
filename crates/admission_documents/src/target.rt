//! The target of a request.
ghost use Rattle.std.specs.Prelude.{◌≡◌, option_map};
ghost use Rattle.serde_json.specs.View.{view};
ghost use Rattle.admission_match.specs.Requests.{resource_view};
ghost use Rattle.admission_documents.specs.Requests.{is_as_sent, is_kind, is_resource, keeps_kind, keeps_resource, keeps_subresource, kind_in, kind_of, kind_view, resource_in, resource_of, target_in, target_parts, target_view};

use crate::group_version_kind::GroupVersionKind;
use admission_match::GroupVersionResource;
use json_fields::{field, text, text_or_empty};
use serde_json::Value;

/// The kind, resource and subresource of a request.
#[derive(Clone, Copy, Drop)]
pub(crate) struct Target<'a> {
    pub kind: GroupVersionKind<'a>,
    pub resource: GroupVersionResource<'a>,
    pub subresource: &'a str,
}

impl<'a> Target<'a> {
    /// The target of a request, if it is given and the request was not converted for a webhook.
    pub(crate) fn of(request: &'a Value) -> Option<Target<'a>>
        ensures { option_map target_view result ≡ target_in (view request.now) }
    {
        let target = Target::parts(request)?;
        if target.is_as_sent(request) {
            return Some(target);
        }
        None
    }

    #[tactic(auto, unfolding(crate::specs::Requests::target_parts))]
    fn parts(request: &'a Value) -> Option<Target<'a>>
        ensures { option_map target_view result ≡ target_parts (view request.now) }
    {
        let kind = kind_of(field(request, "kind"))?;
        let resource = resource_of(field(request, "resource"))?;
        let subresource = text_or_empty(field(request, "subResource"))?;
        Some(Target {
            kind,
            resource,
            subresource,
        })
    }

    /// Whether the client of the API server asked for this kind, resource and subresource.
    #[tactic(auto, unfolding(crate::specs::Requests::is_as_sent))]
    fn is_as_sent(&self, request: &Value) -> bool
        ensures { result ≡ is_as_sent (view request.now) (target_view self.now) }
    {
        let kind = keeps_kind(&self.kind, field(request, "requestKind"));
        let resource = keeps_resource(&self.resource, field(request, "requestResource"));
        let subresource = keeps_subresource(self.subresource, field(request, "requestSubResource"));
        kind && resource && subresource
    }
}

fn kind_of<'a>(value: Option<&'a Value>) -> Option<GroupVersionKind<'a>>
    ensures { option_map kind_view result ≡ kind_of (option_map (λ v. view v.now) value.entry) }
{
    match value {
        Some(value) => kind_in(value),
        None => None,
    }
}

fn resource_of<'a>(value: Option<&'a Value>) -> Option<GroupVersionResource<'a>>
    ensures { option_map resource_view result ≡ resource_of (option_map (λ v. view v.now) value.entry) }
{
    match value {
        Some(value) => resource_in(value),
        None => None,
    }
}

#[tactic(auto, unfolding(crate::specs::Requests::kind_in))]
fn kind_in<'a>(value: &'a Value) -> Option<GroupVersionKind<'a>>
    ensures { option_map kind_view result ≡ kind_in (view value.now) }
{
    let group = text_or_empty(field(value, "group"))?;
    let version = text(field(value, "version"))?;
    let kind = text(field(value, "kind"))?;
    Some(GroupVersionKind {
        group,
        version,
        kind,
    })
}

#[tactic(auto, unfolding(crate::specs::Requests::resource_in))]
fn resource_in<'a>(value: &'a Value) -> Option<GroupVersionResource<'a>>
    ensures { option_map resource_view result ≡ resource_in (view value.now) }
{
    let group = text_or_empty(field(value, "group"))?;
    let version = text(field(value, "version"))?;
    let resource = text(field(value, "resource"))?;
    Some(GroupVersionResource {
        group,
        version,
        resource,
    })
}

#[tactic(auto, unfolding(crate::specs::Requests::keeps_kind))]
fn keeps_kind(kind: &GroupVersionKind<'_>, value: Option<&Value>) -> bool
    ensures { result ≡ keeps_kind (kind_view kind.now) (option_map (λ v. view v.now) value.entry) }
{
    match value {
        Some(value) => is_kind(kind, kind_in(value)),
        None => true,
    }
}

fn is_kind(kind: &GroupVersionKind<'_>, other: Option<GroupVersionKind<'_>>) -> bool
    ensures { result ≡ is_kind (kind_view kind.now) (option_map kind_view other.entry) }
{
    match other {
        Some(other) => {
            other.group == kind.group && other.version == kind.version && other.kind == kind.kind
        }
        None => false,
    }
}

#[tactic(auto, unfolding(crate::specs::Requests::keeps_resource))]
fn keeps_resource(resource: &GroupVersionResource<'_>, value: Option<&Value>) -> bool
    ensures { result ≡ keeps_resource (resource_view resource.now) (option_map (λ v. view v.now) value.entry) }
{
    match value {
        Some(value) => is_resource(resource, resource_in(value)),
        None => true,
    }
}

fn is_resource(resource: &GroupVersionResource<'_>, other: Option<GroupVersionResource<'_>>) -> bool
    ensures { result ≡ is_resource (resource_view resource.now) (option_map resource_view other.entry) }
{
    match other {
        Some(other) => {
            other.group == resource.group
                && other.version == resource.version
                && other.resource == resource.resource
        }
        None => false,
    }
}

#[tactic(auto, unfolding(crate::specs::Requests::keeps_subresource))]
fn keeps_subresource(subresource: &str, value: Option<&Value>) -> bool
    ensures { result ≡ keeps_subresource subresource.now (option_map (λ v. view v.now) value.entry) }
{
    match value {
        None => true,
        Some(Value::String(text)) => text.as_str() == subresource,
        Some(_) => false,
    }
}
