//! The scopes of the kinds that definitions (CustomResourceDefinition) serve.
ghost use Rattle.std.specs.Prelude.{◌≡◌, ◌&&◌, ℕ, [], List, bytes_eq, false, None, Some, option_map, IfOk, OnOk, if◌then◌else◌};
ghost use Rattle.std.specs.Option.{option_map_or, option_or};
ghost use Rattle.serde_json.specs.View.{items_view, view};
ghost use Rattle.cluster_state.specs.Items.{group_in};
ghost use Rattle.cluster_state.specs.Objects.{entries_of, named_view};
ghost use Rattle.cluster_state.specs.Policies.{ParamKind as NamedKind, param_kind_view};
ghost use Rattle.cluster_state.specs.Scopes.{is_served_kind, items_of, scope_at, scope_by_spec, serves_version, serves_with, version_at, version_if, AreScopes};
ghost use Rattle.cluster_state.specs.Serving.{is_served, is_true, scope_of, serves_in, some_item, version_in};

use crate::document::Document;
use crate::item::{group_in, slash_in};
use crate::param_kind::ParamKind;
use crate::param_scope::ParamScope;
use json_fields::{field, field_of, text};
use serde_json::Value;
use std::alloc::{AllocError, Global};
use std::collections::BTreeMap;

/// The scope with each version that is served; none if its name is not known.
pub(crate) type Versions<'a> = BTreeMap<&'a [u8], Option<ParamScope>>;

/// The versions of each group and kind.
pub(crate) type Scopes<'a> = BTreeMap<(&'a [u8], &'a str), Versions<'a>>;

/// A kind that a definition serves.
#[derive(Clone, Copy, Debug, Drop)]
pub(crate) struct ServedKind<'a> {
    pub(crate) group: &'a [u8],
    pub(crate) kind: &'a str,
    pub(crate) versions: &'a Vec<Value>,
}

/// The scope that the index has for a kind.
pub(crate) fn scope_in<'a>(scopes: &Scopes<'a>, kind: &ParamKind<'a>) -> Option<Option<ParamScope>>
    ensures { result ≡ scope_at scopes.now (param_kind_view kind.now) }
{
    let api_version = kind.api_version.as_bytes();
    let place = (group_in(api_version), kind.kind);
    match scopes.get(&place) {
        Some(versions) => versions.get(&version_in(api_version)).copied(),
        None => None,
    }
}

/// The scopes by definitions, of which the first that serves a kind decides.
pub(crate) fn scopes_by<'a>(
    alloc: Global,
    definitions: Option<&BTreeMap<&'a str, Document<'a>>>,
) -> Result<Scopes<'a>, AllocError>
    ensures { IfOk result (λ m. AreScopes m (named_view (entries_of definitions.entry))) }
{
    match definitions {
        Some(named) => scopes_of(alloc, named),
        None => Ok(BTreeMap::new(alloc)),
    }
}

fn scopes_of<'a>(
    alloc: Global,
    named: &BTreeMap<&'a str, Document<'a>>,
) -> Result<Scopes<'a>, AllocError>
    ensures { IfOk result (λ m. AreScopes m (named_view named.now.entries)) }
{
    let mut scopes = BTreeMap::new(alloc);
    for (_name, document) in named.iter() {
        add_spec(alloc, &mut scopes, field(document.value, "spec"))?;
    }
    Ok(scopes)
}

/// Adds the scope of each version of the kind that a definition with this specification serves,
/// unless it has one already.
fn add_spec<'a>(
    alloc: Global,
    scopes: &mut Scopes<'a>,
    spec: Option<&'a Value>,
) -> Result<(), AllocError>
    ensures { OnOk result ((k : NamedKind) → scope_at scopes.new k ≡ option_or (scope_at scopes.old k) (scope_by_spec k (option_map (λ v. view v.now) spec.entry))) }
{
    let scope = scope_of(field_of(spec, "scope"));
    match served_kind(spec) {
        Some(served) => {
            add_kind(alloc, scopes, served, scope)?;
            Ok(())
        }
        None => Ok(()),
    }
}

/// The kind that a specification serves, if it names one and has versions.
fn served_kind<'a>(spec: Option<&'a Value>) -> Option<ServedKind<'a>>
    ensures { (k : NamedKind) → option_map_or (is_served_kind k) result false ≡ serves_in k (option_map (λ v. view v.now) spec.entry) }
{
    match text(field_of(spec, "group")) {
        Some(group) => named_kind(group, spec),
        None => None,
    }
}

fn named_kind<'a>(group: &'a str, spec: Option<&'a Value>) -> Option<ServedKind<'a>>
    ensures { (k : NamedKind) → option_map_or (is_served_kind k) result false ≡ serves_with k group.now (option_map (λ v. view v.now) spec.entry) }
{
    let names = field_of(spec, "names");
    let versions = field_of(spec, "versions");
    match text(field_of(names, "kind")) {
        Some(kind) => with_versions(group, kind, versions),
        None => None,
    }
}

fn with_versions<'a>(
    group: &'a str,
    kind: &'a str,
    versions: Option<&'a Value>,
) -> Option<ServedKind<'a>>
    ensures { (k : NamedKind) → option_map_or (is_served_kind k) result false
        ≡ (bytes_eq group.now (group_in k.api_version) && bytes_eq kind.now k.kind && serves_version k (option_map (λ v. view v.now) versions.entry)) }
{
    match array(versions) {
        Some(versions) => Some(ServedKind {
            group: group.as_bytes(),
            kind,
            versions,
        }),
        None => None,
    }
}

fn array<'a>(value: Option<&'a Value>) -> Option<&'a Vec<Value>>
    ensures { option_map (λ v. items_view v.now.items) result ≡ items_of (option_map (λ v. view v.now) value.entry) }
{
    match value {
        Some(Value::Array(items)) => Some(items),
        _ => None,
    }
}

/// Adds the scope of each version of the kind that is served.
fn add_kind<'a>(
    alloc: Global,
    scopes: &mut Scopes<'a>,
    kind: ServedKind<'a>,
    scope: Option<ParamScope>,
) -> Result<(), AllocError>
    ensures { OnOk result ((k : NamedKind) → scope_at scopes.new k ≡ option_or (scope_at scopes.old k) (if is_served_kind k kind.entry then Some scope else None)) }
{
    let place = (kind.group, kind.kind);
    let mut served = versions_or_none(alloc, scopes.remove(&place));
    add_versions(&mut served, kind.versions, scope)?;
    let _old = scopes.insert(place, served)?;
    Ok(())
}

fn versions_or_none<'a>(alloc: Global, versions: Option<Versions<'a>>) -> Versions<'a>
    ensures { (v : List ℕ) → version_at result v ≡ version_if versions.entry v }
{
    match versions {
        Some(versions) => versions,
        None => BTreeMap::new(alloc),
    }
}

/// Adds the scope of each of the versions that is served.
fn add_versions<'a>(
    served: &mut Versions<'a>,
    versions: &'a Vec<Value>,
    scope: Option<ParamScope>,
) -> Result<(), AllocError>
    ensures { OnOk result ((v : List ℕ) → version_at served.new v
        ≡ option_or (version_at served.old v) (if some_item (is_served v) (items_view versions.now.items) then Some scope else None)) }
{
    for version in versions {
        add_version(served, version, scope)?;
    }
    Ok(())
}

/// Adds the scope of a version, if it is served.
fn add_version<'a>(
    served: &mut Versions<'a>,
    version: &'a Value,
    scope: Option<ParamScope>,
) -> Result<(), AllocError>
    ensures { OnOk result ((v : List ℕ) → version_at served.new v ≡ option_or (version_at served.old v) (if is_served v (view version.now) then Some scope else None)) }
{
    let name = served_name(version);
    add_named(served, name, scope)?;
    Ok(())
}

/// The name of a version, if it is served.
fn served_name<'a>(version: &'a Value) -> Option<&'a str>
    ensures { (v : List ℕ) → option_map_or (λ s. bytes_eq s.now v) result false ≡ is_served v (view version.now) }
{
    let name = field(version, "name");
    let served = field(version, "served");
    if is_true(served) { text(name) } else { None }
}

/// Adds the scope of the version of this name, if there is one.
fn add_named<'a>(
    served: &mut Versions<'a>,
    name: Option<&'a str>,
    scope: Option<ParamScope>,
) -> Result<(), AllocError>
    ensures { OnOk result ((v : List ℕ) → version_at served.new v
        ≡ option_or (version_at served.old v) (if option_map_or (λ s. bytes_eq s.now v) name.entry false then Some scope else None)) }
{
    match name {
        Some(name) => {
            add_name(served, name.as_bytes(), scope)?;
            Ok(())
        }
        None => Ok(()),
    }
}

/// Adds the scope of the version of this name, unless it has one.
fn add_name<'a>(
    served: &mut Versions<'a>,
    name: &'a [u8],
    scope: Option<ParamScope>,
) -> Result<(), AllocError>
    ensures { OnOk result ((v : List ℕ) → version_at served.new v ≡ option_or (version_at served.old v) (if bytes_eq name.now v then Some scope else None)) }
{
    if !served.contains_key(&name) {
        let _old = served.insert(name, scope)?;
    }
    Ok(())
}

/// The version of an `apiVersion`.
#[tactic(auto, unfolding(crate::specs::Serving::version_in))]
fn version_in(api_version: &[u8]) -> &[u8]
    ensures { result.now ≡ version_in api_version.now }
{
    match slash_in(api_version) {
        Some(at) => &api_version[at + 1..],
        None => api_version,
    }
}

fn is_true(value: Option<&Value>) -> bool
    ensures { result ≡ is_true (option_map (λ v. view v.now) value.entry) }
{
    match value {
        Some(Value::Bool(flag)) => *flag,
        _ => false,
    }
}

#[tactic(auto, unfolding(crate::specs::Serving::scope_of))]
fn scope_of(value: Option<&Value>) -> Option<ParamScope>
    ensures { result ≡ scope_of (option_map (λ v. view v.now) value.entry) }
{
    match value {
        Some(Value::String(name)) => match name.as_str() {
            "Namespaced" => Some(ParamScope::Namespaced),
            "Cluster" => Some(ParamScope::Cluster),
            _ => None,
        },
        _ => None,
    }
}
