//! Lists of items.
ghost use Rattle.std.specs.Prelude.{◌≡◌, ◌+◌, ◌++◌, OnOk, map, option_map};
ghost use Rattle.serde_json.specs.View.{view};
ghost use Rattle.cluster_state.specs.Items.{documents_in, is_list, item_view, items_in, items_of, list_in};
ghost use Rattle.cluster_state.specs.Refusals.{ReadsDue};

use crate::item::Item;
use crate::state_error::StateError;
use json_fields::{array_of, equals_string, field};
use serde_json::Value;
use std::alloc::{AllocError, Global};

/// The items of all lists.
pub(crate) fn items<'a>(alloc: Global, lists: &'a [Value]) -> Result<Vec<Item<'a>>, StateError>
    ensures { ReadsDue (λ v. map item_view v.items) (items_of (map view lists.now)) result }
{
    let documents = documents(alloc, lists)?;
    items_in(alloc, &documents)
}

/// The documents in all lists.
fn documents<'a>(alloc: Global, lists: &'a [Value]) -> Result<Vec<&'a Value>, StateError>
    ensures { ReadsDue (λ v. map (λ d. view d.now) v.items) (documents_in 0 (map view lists.now)) result }
{
    let mut documents = Vec::new(alloc);
    let mut place = 0;
    for list in lists {
        match list_in(list) {
            Some(items) => append(&mut documents, items)?,
            None => return Err(StateError::NotAList(place)),
        }
        place += 1;
    }
    Ok(documents)
}

fn append<'a>(documents: &mut Vec<&'a Value>, items: &'a [Value]) -> Result<(), AllocError>
    ensures { OnOk result (map (λ d. view d.now) documents.new.items ≡ map (λ d. view d.now) documents.old.items ++ map view items.now) }
{
    for item in items {
        documents.push(item)?;
    }
    Ok(())
}

/// The items of a List.
#[tactic(auto, unfolding(crate::specs::Items::list_in))]
fn list_in(value: &Value) -> Option<&[Value]>
    ensures { option_map (λ v. map view v.now) result ≡ list_in (view value.now) }
{
    if is_list(value) {
        array_of(field(value, "items"))
    } else {
        None
    }
}

#[tactic(auto, unfolding(crate::specs::Items::is_list))]
fn is_list(value: &Value) -> bool
    ensures { result ≡ is_list (view value.now) }
{
    let version = equals_string(field(value, "apiVersion"), "v1");
    let kind = equals_string(field(value, "kind"), "List");
    version && kind
}

/// The items in documents.
fn items_in<'a>(alloc: Global, documents: &[&'a Value]) -> Result<Vec<Item<'a>>, StateError>
    ensures { ReadsDue (λ v. map item_view v.items) (items_in 0 (map (λ d. view d.now) documents.now)) result }
{
    let mut items = Vec::new(alloc);
    let mut place = 0;
    for document in documents {
        match Item::of(document) {
            Some(item) => items.push(item)?,
            None => return Err(StateError::InvalidItem(place)),
        }
        place += 1;
    }
    Ok(items)
}
