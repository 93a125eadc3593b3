//! Reads the parts of a state.
ghost use Rattle.std.specs.Prelude.{◌≡◌, List, map, IfOk};
ghost use Rattle.serde_json.specs.View.{view};
ghost use Rattle.cluster_state.specs.Bindings.{binding_in, binding_view, bindings_in};
ghost use Rattle.cluster_state.specs.Items.{item_view};
ghost use Rattle.cluster_state.specs.Names.{HoldsPolicyNames};
ghost use Rattle.cluster_state.specs.Numbers.{HasNumbers};
ghost use Rattle.cluster_state.specs.Objects.{no_objects, objects_view, named_view, with_items};
ghost use Rattle.cluster_state.specs.Policies.{is_bound, policies_in, policy_in, policy_view};
ghost use Rattle.cluster_state.specs.Reading.{or_invalid_binding, or_invalid_policy};
ghost use Rattle.cluster_state.specs.Refusals.{ReadsDue};
ghost use Rattle.cluster_state.specs.declared.binding.Binding.{Binding as CodeBinding};
ghost use Rattle.cluster_state.specs.State as specs;
ghost use Rattle.cluster_state.specs.State.{ObjectsRead, objects_of};

use crate::binding::Binding;
use crate::binding_error::BindingError;
use crate::document::Document;
use crate::item::Item;
use crate::objects::Objects;
use crate::policy::Policy;
use crate::state_error::StateError;
use crate::together::appended;
use admission_documents::FieldError;
use serde_json::Value;
use std::alloc::{AllocError, Global};
use std::collections::{BTreeMap, BTreeSet};

/// The objects of items.
pub(crate) fn objects<'a>(alloc: Global, items: &[Item<'a>]) -> Result<Objects<'a>, StateError>
    ensures read { ObjectsRead (objects_of (map item_view items.now)) result }
    ensures numbered { IfOk result (λ o. HasNumbers (map item_view items.now) o.collections) }
{
    let objects = with_items(alloc, items)?;
    if objects.has_namespace() {
        return Ok(objects);
    }
    Err(StateError::NoNamespace)
}

fn with_items<'a>(alloc: Global, items: &[Item<'a>]) -> Result<Objects<'a>, StateError>
    ensures read { ObjectsRead (with_items no_objects (map item_view items.now)) result }
    ensures numbered { IfOk result (λ o. HasNumbers (map item_view items.now) o.collections) }
{
    let mut objects = Objects::new(alloc);
    let mut number = 0;
    for item in items {
        if !objects.add(alloc, number, item)? {
            return Err(StateError::DuplicateItem(String::from_str(alloc, item.name)?));
        }
        number += 1;
    }
    Ok(objects)
}

/// All bindings.
pub(crate) fn bindings<'a>(
    alloc: Global,
    objects: &Objects<'a>,
) -> Result<Vec<Binding<'a>>, StateError>
    ensures { ReadsDue (λ v. map binding_view v.items) (bindings_in (objects_view objects.now specs.bindings)) result }
{
    match objects.bindings() {
        Some(named) => bindings_in(alloc, named),
        None => Ok(Vec::new(alloc)),
    }
}

fn bindings_in<'a>(
    alloc: Global,
    named: &BTreeMap<&'a str, Document<'a>>,
) -> Result<Vec<Binding<'a>>, StateError>
    ensures { ReadsDue (λ v. map binding_view v.items) (bindings_in (named_view named.now.entries)) result }
{
    let mut bindings = Vec::new(alloc);
    for (name, document) in named.iter() {
        bindings = appended(bindings, binding(alloc, name, document.value))?;
    }
    Ok(bindings)
}

/// The binding with this name, or the refusal of the state because of it.
fn binding<'a>(alloc: Global, name: &'a str, document: &'a Value) -> Result<Binding<'a>, StateError>
    ensures { ReadsDue binding_view (or_invalid_binding name.now (binding_in name.now (view document.now))) result }
{
    match Binding::read(alloc, name, document) {
        Ok(binding) => Ok(binding),
        Err(BindingError::Memory) => Err(StateError::Memory),
        Err(BindingError::InvalidPart(part)) => {
            let name = String::from_str(alloc, name)?;
            Err(StateError::InvalidBinding(name, part))
        }
    }
}

/// The policies that have a binding.
pub(crate) fn policies<'a>(
    alloc: Global,
    objects: &Objects<'a>,
    bindings: &[Binding<'a>],
) -> Result<Vec<Policy<'a>>, StateError>
    ensures { ReadsDue (λ v. map policy_view v.items) (policies_in (map binding_view bindings.now) (objects_view objects.now specs.policies)) result }
{
    match objects.policies() {
        Some(named) => policies_in(alloc, named, bindings),
        None => Ok(Vec::new(alloc)),
    }
}

fn policies_in<'a>(
    alloc: Global,
    named: &BTreeMap<&'a str, Document<'a>>,
    bindings: &[Binding<'a>],
) -> Result<Vec<Policy<'a>>, StateError>
    ensures { ReadsDue (λ v. map policy_view v.items) (policies_in (map binding_view bindings.now) (named_view named.now.entries)) result }
{
    let names = policy_names(alloc, bindings)?;
    let mut policies = Vec::new(alloc);
    for (name, document) in named.iter() {
        if is_bound(&names, name) {
            policies = appended(policies, policy(alloc, name, document.value))?;
        }
    }
    Ok(policies)
}

/// The policy with this name, or the refusal of the state because of it.
fn policy<'a>(alloc: Global, name: &'a str, document: &'a Value) -> Result<Policy<'a>, StateError>
    ensures { ReadsDue policy_view (or_invalid_policy name.now (policy_in name.now (view document.now))) result }
{
    match Policy::read(alloc, name, document) {
        Ok(policy) => Ok(policy),
        Err(FieldError::Memory) => Err(StateError::Memory),
        Err(FieldError::InvalidField) => {
            Err(StateError::InvalidPolicy(String::from_str(alloc, name)?))
        }
    }
}

/// The names of the policies that bindings refer to.
fn policy_names<'a>(
    alloc: Global,
    bindings: &[Binding<'a>],
) -> Result<BTreeSet<&'a str>, AllocError>
    ensures { IfOk result (λ names. HoldsPolicyNames names bindings.now) }
{
    let mut names = BTreeSet::new(alloc);
    for binding in bindings {
        let _is_new = names.insert(binding.policy_name)?;
    }
    Ok(names)
}

/// Whether a binding refers to the policy with this name, by the names of all such policies.
fn is_bound(names: &BTreeSet<&str>, name: &str) -> bool
    ensures { (bs : List CodeBinding) → HoldsPolicyNames names.now bs → result ≡ is_bound (map binding_view bs) name.now }
{
    names.contains(name)
}
