//! The namespaces of a cluster.
ghost use Rattle.std.specs.Prelude.{◌≡◌, IfSome, option_map};
ghost use Rattle.serde_json.specs.View.{view};
ghost use Rattle.admission_documents.specs.Requests.{kind_view};
ghost use Rattle.cluster_state.specs.Numbers.{IsNumbered, IsNumberedNamespace};
ghost use Rattle.cluster_state.specs.Params.{namespace_labels, namespace_named, namespace_object, namespace_object_view};
ghost use Rattle.cluster_state.specs.State.{state_view};

use crate::document::Document;
use crate::namespace_object::NamespaceObject;
use crate::objects::object;
use crate::state::State;
use admission_documents::{GroupVersionKind, ObjectLabels};
use admission_match::Namespaces;
use label_selectors::LabelSelector;

impl<'a> State<'a> {
    /// The namespace with this name.
    pub fn namespace(&self, name: &str) -> Option<Document<'a>>
        ensures value { option_map (λ d. view d.value.now) result ≡ namespace_named name.now (state_view self.now).objects }
        ensures numbered { IfSome result (IsNumbered (state_view self.now).items) }
    {
        object(self.objects.all.namespaces(), name)
    }

    /// The root `namespaceObject` of a request on an object of this kind in this namespace.
    pub fn namespace_object(
        &self,
        kind: &GroupVersionKind<'_>,
        namespace: &str,
    ) -> NamespaceObject<'a>
        ensures value { namespace_object_view result ≡ namespace_object (state_view self.now).objects (kind_view kind.now) namespace.now }
        ensures numbered { IsNumberedNamespace (state_view self.now).items result }
    {
        if kind.is_core_namespace() || namespace.is_empty() {
            return NamespaceObject::Null;
        }
        match self.namespace(namespace) {
            Some(object) => NamespaceObject::Object(object),
            None => NamespaceObject::NotFound,
        }
    }
}

impl Namespaces for State<'_> {
    ghost labels = { λ s. namespace_labels (state_view s).objects };

    fn selected(&self, name: &str, selector: &LabelSelector) -> Option<bool> {
        match self.namespace(name) {
            Some(object) => Some(selector.selects(&ObjectLabels::of(object.value))),
            None => None,
        }
    }
}
