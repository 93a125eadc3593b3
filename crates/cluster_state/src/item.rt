//! Items of lists.
ghost use Rattle.std.specs.Prelude.{◌≡◌, ◌==◌, ◌<◌, length, option_map, position, IfSome};
ghost use Rattle.serde_json.specs.View.{view};
ghost use Rattle.cluster_state.specs.Items.{are_labels, group_in, has_other_version, is_misplaced, is_of_cluster, is_policy_kind, is_read, item_in, item_parts, item_view};

use admission_documents::{is_text_map, labels_field};
use json_fields::{field, field_of, text, text_or_empty};
use serde_json::Value;

/// An object in a list. Its texts and its document are borrowed from the list.
#[derive(Clone, Copy, Debug, Drop)]
pub struct Item<'a> {
    pub api_version: &'a str,
    pub kind: &'a str,
    /// Empty if the object has none.
    pub namespace: &'a str,
    pub name: &'a str,
    pub document: &'a Value,
}

impl<'a> Item<'a> {
    /// Reads the item in a document; `None` if that is not an object of the API.
    pub fn of(document: &'a Value) -> Option<Item<'a>>
        ensures { option_map item_view result ≡ item_in (view document.now) }
    {
        if !are_labels(labels_field(document)) {
            return None;
        }
        let item = Item::parts(document)?;
        if item.is_read() {
            return Some(item);
        }
        None
    }

    #[tactic(auto, unfolding(crate::specs::Items::item_parts))]
    fn parts(document: &'a Value) -> Option<Item<'a>>
        ensures { option_map item_view result ≡ item_parts (view document.now) }
    {
        let metadata = field(document, "metadata");
        let api_version = text(field(document, "apiVersion"))?;
        let kind = text(field(document, "kind"))?;
        let name = text(field_of(metadata, "name"))?;
        let namespace = text_or_empty(field_of(metadata, "namespace"))?;
        Some(Item {
            api_version,
            kind,
            namespace,
            name,
            document,
        })
    }

    fn is_read(&self) -> bool
        ensures { result ≡ is_read (item_view self.now) }
    {
        !self.name.is_empty()
            && !has_other_version(self.api_version, self.kind)
            && !self.is_misplaced()
    }

    /// Whether the object is in a namespace, though its kind is of the cluster.
    fn is_misplaced(&self) -> bool
        ensures { result ≡ is_misplaced (item_view self.now).collection }
    {
        is_of_cluster(self.api_version, self.kind) && !self.namespace.is_empty()
    }
}

/// Whether the labels are absent or a map of texts.
fn are_labels(value: Option<&Value>) -> bool
    ensures { result ≡ are_labels (option_map (λ v. view v.now) value.entry) }
{
    match value {
        Some(_) => is_text_map(value),
        None => true,
    }
}

/// Whether this is a policy or a binding of another API version.
#[tactic(auto, unfolding(crate::specs::Items::has_other_version))]
fn has_other_version(api_version: &str, kind: &str) -> bool
    ensures { result ≡ has_other_version api_version.now kind.now }
{
    group_in(api_version.as_bytes()) == "admissionregistration.k8s.io".as_bytes()
        && is_policy_kind(kind)
        && api_version != "admissionregistration.k8s.io/v1"
}

/// Whether this is a kind of the cluster that a state reads.
#[tactic(auto, unfolding(crate::specs::Items::is_of_cluster))]
fn is_of_cluster(api_version: &str, kind: &str) -> bool
    ensures { result ≡ is_of_cluster api_version.now kind.now }
{
    (api_version == "admissionregistration.k8s.io/v1" && is_policy_kind(kind))
        || (api_version == "v1" && kind == "Namespace")
        || (api_version == "apiextensions.k8s.io/v1" && kind == "CustomResourceDefinition")
}

#[tactic(auto, unfolding(crate::specs::Items::is_policy_kind))]
fn is_policy_kind(kind: &str) -> bool
    ensures { result ≡ is_policy_kind kind.now }
{
    kind == "ValidatingAdmissionPolicy" || kind == "ValidatingAdmissionPolicyBinding"
}

/// The API group of an `apiVersion`, empty for the core group.
#[tactic(auto, unfolding(crate::specs::Items::group_in))]
pub(crate) fn group_in(api_version: &[u8]) -> &[u8]
    ensures { result.now ≡ group_in api_version.now }
{
    match slash_in(api_version) {
        Some(at) => &api_version[..at],
        None => &[],
    }
}

/// The place of the first slash.
pub(crate) fn slash_in(text: &[u8]) -> Option<usize>
    ensures place { result ≡ position (λ c. c == 47) text.now }
    ensures within { IfSome result (λ at. at < length text.now) }
{
    text.iter().position(|byte| *byte == b'/')
}
