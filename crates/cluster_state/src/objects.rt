//! The objects of a cluster, by kind, namespace and name.
ghost use Rattle.std.specs.Prelude.{◌≡◌, ◌==◌, length, IfOk, IfSome, OnOk, not, option_map, List, [], Some, slice_get};
ghost use Rattle.std.specs.Option.{option_map_or};
ghost use Rattle.serde_json.specs.View.{view};
ghost use Rattle.cluster_state.specs.Items.{Collection, Item as ListedItem, item_view};
ghost use Rattle.cluster_state.specs.Numbers.{AreNumbered, HasNumbers, IsNumbered};
ghost use Rattle.cluster_state.specs.State.{bindings, definitions, namespaces, policies};
ghost use Rattle.cluster_state.specs.Objects.{collection_view, entries_at, entries_in, entries_of, is_collection, is_taken, named_in, named_view, object_named, objects_view, with_item};

use crate::document::Document;
use crate::item::Item;
use std::alloc::{AllocError, Global};
use std::collections::BTreeMap;

/// The objects of a cluster.
#[derive(Debug, Drop)]
pub(crate) struct Objects<'a> {
    /// By namespace, kind and `apiVersion`, and then by name. Those without a namespace come first.
    collections: BTreeMap<(&'a str, &'a str, &'a str), BTreeMap<&'a str, Document<'a>>>,
}

impl<'a> Objects<'a> {
    pub(crate) fn new(alloc: Global) -> Objects<'a>
        ensures { (c : Collection) → entries_at result c ≡ [] }
    {
        Objects {
            collections: BTreeMap::new(alloc),
        }
    }

    /// Adds the item with this number; returns whether its place was free. Otherwise it replaces
    /// another one.
    pub(crate) fn add(
        &mut self,
        alloc: Global,
        number: usize,
        item: &Item<'a>,
    ) -> Result<bool, AllocError>
        ensures free { IfOk result (λ free. free ≡ not (is_taken (objects_view self.old) (item_view item.now))) }
        ensures added { OnOk result ((c : Collection) → objects_view self.new c ≡ with_item (objects_view self.old) (item_view item.now) c) }
        ensures numbered { OnOk result ((is : List ListedItem) → HasNumbers is self.old.collections → slice_get is number ≡ Some (item_view item.now) → HasNumbers is self.new.collections) }
    {
        add_to(alloc, &mut self.collections, number, item)
    }

    /// Whether there is a Namespace.
    pub(crate) fn has_namespace(&self) -> bool
        ensures { result ≡ not (length (objects_view self.now namespaces) == 0) }
    {
        has_some(self.namespaces())
    }

    /// The namespaces.
    pub(crate) fn namespaces(&self) -> Option<&BTreeMap<&'a str, Document<'a>>>
        ensures { entries_of result ≡ entries_at self.now namespaces }
    {
        self.named(&("", "Namespace", "v1"))
    }

    /// The definitions of kinds.
    pub(crate) fn definitions(&self) -> Option<&BTreeMap<&'a str, Document<'a>>>
        ensures { entries_of result ≡ entries_at self.now definitions }
    {
        self.named(&("", "CustomResourceDefinition", "apiextensions.k8s.io/v1"))
    }

    /// The bindings of policies.
    pub(crate) fn bindings(&self) -> Option<&BTreeMap<&'a str, Document<'a>>>
        ensures { entries_of result ≡ entries_at self.now bindings }
    {
        self.named(&(
            "",
            "ValidatingAdmissionPolicyBinding",
            "admissionregistration.k8s.io/v1",
        ))
    }

    /// The policies.
    pub(crate) fn policies(&self) -> Option<&BTreeMap<&'a str, Document<'a>>>
        ensures { entries_of result ≡ entries_at self.now policies }
    {
        self.named(&(
            "",
            "ValidatingAdmissionPolicy",
            "admissionregistration.k8s.io/v1",
        ))
    }

    /// The objects with this namespace, kind and `apiVersion`.
    pub(crate) fn named(
        &self,
        place: &(&'a str, &'a str, &'a str),
    ) -> Option<&BTreeMap<&'a str, Document<'a>>>
        ensures { entries_of result ≡ entries_at self.now (collection_view place.now) }
    {
        self.collections.get(place)
    }

    /// The objects with this `apiVersion` and kind in a namespace, whose name need not outlive them.
    pub(crate) fn at(
        &self,
        api_version: &'a str,
        kind: &'a str,
        namespace: &str,
    ) -> Option<&BTreeMap<&'a str, Document<'a>>>
        ensures { entries_of result ≡ entries_at self.now (record { api_version = api_version.now; kind = kind.now; namespace = namespace.now }) }
    {
        match own_name(self.namespaces(), namespace) {
            Some(own) => self.named(&(own, kind, api_version)),
            None => self.beyond(api_version, kind, namespace),
        }
    }

    /// The same in any namespace, also if there is no such Namespace.
    fn beyond(
        &self,
        api_version: &str,
        kind: &str,
        namespace: &str,
    ) -> Option<&BTreeMap<&'a str, Document<'a>>>
        ensures { entries_of result ≡ entries_at self.now (record { api_version = api_version.now; kind = kind.now; namespace = namespace.now }) }
    {
        for (place, objects) in self.collections.iter() {
            if is_place(place, api_version, kind, namespace) {
                return Some(objects);
            }
        }
        None
    }
}

/// The name among these objects that is this text.
fn own_name<'a>(named: Option<&BTreeMap<&'a str, Document<'a>>>, name: &str) -> Option<&'a str>
    ensures { IfSome result (λ own. own.now ≡ name.now) }
{
    match named {
        Some(named) => own_name_in(named, name),
        None => None,
    }
}

fn own_name_in<'a>(named: &BTreeMap<&'a str, Document<'a>>, name: &str) -> Option<&'a str>
    ensures { IfSome result (λ own. own.now ≡ name.now) }
{
    match named.get_key_value(name) {
        Some((own, _)) if *own == name => Some(*own),
        _ => None,
    }
}

/// Whether this is the place of these objects.
fn is_place(place: &(&str, &str, &str), api_version: &str, kind: &str, namespace: &str) -> bool
    ensures { result ≡ is_collection (record { api_version = api_version.now; kind = kind.now; namespace = namespace.now }) (collection_view place.now) }
{
    namespace == place.0 && kind == place.1 && api_version == place.2
}

fn add_to<'a>(
    alloc: Global,
    collections: &mut BTreeMap<(&'a str, &'a str, &'a str), BTreeMap<&'a str, Document<'a>>>,
    number: usize,
    item: &Item<'a>,
) -> Result<bool, AllocError>
    ensures free { IfOk result (λ free. free ≡ not (is_taken (named_in collections.old) (item_view item.now))) }
    ensures added { OnOk result ((c : Collection) → named_in collections.new c ≡ with_item (named_in collections.old) (item_view item.now) c) }
    ensures numbered { OnOk result ((is : List ListedItem) → HasNumbers is collections.old → slice_get is number ≡ Some (item_view item.now) → HasNumbers is collections.new) }
{
    let place = (item.namespace, item.kind, item.api_version);
    let document = Document {
        number,
        value: item.document,
    };
    let mut objects = named_or_new(alloc, collections.remove(&place));
    let old = objects.insert(item.name, document)?;
    collections.insert(place, objects)?;
    Ok(old.is_none())
}

fn named_or_new<'a>(
    alloc: Global,
    objects: Option<BTreeMap<&'a str, Document<'a>>>,
) -> BTreeMap<&'a str, Document<'a>>
    ensures { result.entries ≡ option_map_or (λ o. o.entries) objects.entry [] }
{
    match objects {
        Some(objects) => objects,
        None => BTreeMap::new(alloc),
    }
}

fn has_some(named: Option<&BTreeMap<&str, Document<'_>>>) -> bool
    ensures { result ≡ not (length (entries_of named.entry) == 0) }
{
    match named {
        Some(named) => !named.is_empty(),
        None => false,
    }
}

/// The object with this name, if there is one.
pub(crate) fn object<'a>(
    named: Option<&BTreeMap<&'a str, Document<'a>>>,
    name: &str,
) -> Option<Document<'a>>
    ensures value { option_map (λ d. view d.value.now) result ≡ object_named name.now (named_view (entries_of named.entry)) }
    ensures numbered { (is : List ListedItem) → AreNumbered is (entries_of named.entry) → IfSome result (IsNumbered is) }
{
    match named {
        Some(named) => named.get(name).copied(),
        None => None,
    }
}
