//! Values as whole trees.

ghost use Rattle.std.specs.Prelude.{◌≡◌, ◌≤◌, max, ◌<◌, ◌+◌, ◌^◌, false, Some, slice_get, option_map, option_and_then, string_bytes, IsSome, IfOk, IfSome};
ghost use Rattle.serde_json.specs.View.{view};
ghost use Rattle.value_store.specs.Value as kind;
ghost use Rattle.value_store.specs.Size.{depth_of};
ghost use Rattle.value_store.specs.Calls.{entries_part, join_of, push_of, put_of};
ghost use Rattle.value_store.specs.Roots.{has_other};
ghost use Rattle.value_store.specs.Plain.{plain_value, part_of};
ghost use Rattle.value_store.specs.Lookup.{place_of_key, text_part};
ghost use Rattle.value_store.specs.Json.{json_text};
ghost use Rattle.value_store.specs.Keys.{IsOrdered};
ghost use Rattle.value_store.specs.Seen.{outcome_view, shape_view, seen_size};
ghost use Rattle.value_store.specs.Value.{keys_of};
ghost use Rattle.value_store.specs.Propositions.{ordered_prop};

use crate::measure::measure_document;
use crate::members::{item_count, key_at, member_count, part_at, place_in};
use crate::number::integer;
use crate::shape::Shape;
use serde_json::{Map, Value};
use std::alloc::{AllocError, Global};

/// A value as an owned document, with its depth.
#[derive(Drop)]
pub(crate) struct Tree {
    pub(crate) document: Value,
    pub(crate) depth: u64,
    // Each number is a signed 64-bit integer.
    pub ghost whole: { has_other (view document) ≡ false },
    pub ghost deep: { depth ≡ depth_of (plain_value (view document)) },
    // The keys of its maps are in byte order without duplicates.
    pub ghost ordered: { IsOrdered (plain_value (view document)) } by { ordered_prop (plain_value (view document)) },
}

impl Tree {
    ghost use Rattle.value_store.specs.Nodes.{tree_value};

    pub(crate) fn of_int(n: i64) -> Tree
        ensures value { tree_value result ≡ kind.int n }
        ensures depth { result.depth ≡ 0 }
    {
        Tree {
            document: Value::from(n),
            depth: 0,
        }
    }

    pub(crate) fn of_text(alloc: Global, text: &str) -> Result<Tree, AllocError>
        ensures value { IfOk result (λ t. tree_value t ≡ kind.text text.now) }
        ensures depth { IfOk result (λ t. t.depth ≡ 0) }
    {
        let document = Value::try_from_str(alloc, text)?;
        Ok(Tree { document, depth: 0 })
    }

    pub(crate) fn new_list(alloc: Global) -> Tree
        ensures value { tree_value result ≡ kind.list kind.no_items }
        ensures depth { result.depth ≡ 1 }
    {
        Tree {
            document: Value::Array(Vec::new(alloc)),
            depth: 1,
        }
    }

    pub(crate) fn new_map(alloc: Global) -> Tree
        ensures value { tree_value result ≡ kind.map kind.no_entries }
        ensures depth { result.depth ≡ 1 }
    {
        Tree {
            document: Value::Object(Map::new(alloc)),
            depth: 1,
        }
    }

    /// An owned tree of a document that has a value.
    #[tactic(auto, using(crate::proofs::Measures::measured_depth, crate::proofs::Measures::measured_some, crate::proofs::Ordered::value_ordered))]
    pub(crate) fn of_document(document: &Value) -> Result<Tree, AllocError>
        requires whole { has_other (view document.now) ≡ false }
        requires shallow { depth_of (plain_value (view document.now)) < 2 ^ 64 }
        ensures { IfOk result (λ t. tree_value t ≡ plain_value (view document.now)) }
    {
        let copy = document.clone()?;
        let depth = measure_document(document).unwrap().depth;
        Ok(Tree {
            document: copy,
            depth,
        })
    }

    pub(crate) fn copy(&self) -> Result<Tree, AllocError>
        ensures { IfOk result (λ t. tree_value t ≡ tree_value self.now) }
    {
        Ok(Tree {
            document: self.document.clone()?,
            depth: self.depth,
        })
    }

    /// The list with one more item.
    #[tactic(auto, using(crate::proofs::Keys::push_ordered, crate::proofs::Trees::push_list))]
    pub(crate) fn push(&self, item: &Tree) -> Result<Tree, AllocError>
        requires list { IsSome (push_of (tree_value self.now) (tree_value item.now)) }
        requires shallow { item.now.depth + 1 < 2 ^ 64 }
        ensures value { IfOk result (λ t. Some (tree_value t) ≡ push_of (tree_value self.now) (tree_value item.now)) }
        ensures depth { IfOk result (λ t. t.depth ≡ max self.now.depth (item.now.depth + 1)) }
    {
        let more = item.document.clone()?;
        let depth = self.depth.max(item.depth + 1);
        match self.document.clone()? {
            Value::Array(mut items) => {
                items.push(more)?;
                Ok(Tree {
                    document: Value::Array(items),
                    depth,
                })
            }
            _ => unreachable!(),
        }
    }

    /// The outline of the value.
    pub(crate) fn shape(&self) -> Shape<'_>
        ensures shape { shape_view result ≡ outcome_view (kind.value (tree_value self.now)) }
        ensures short { seen_size (shape_view result) < 2 ^ 63 }
    {
        match &self.document {
            Value::Null => Shape::Null,
            Value::Bool(truth) => Shape::Bool(*truth),
            Value::Number(n) => Shape::Int(integer(n)),
            Value::String(text) => Shape::Text(text.as_str()),
            Value::Array(items) => Shape::List(item_count(items)),
            Value::Object(members) => Shape::Map(member_count(members)),
        }
    }

    /// The i-th item of a list, or the i-th value of a map.
    pub(crate) fn part(&self, i: u64) -> Option<&Value>
        ensures { option_map (λ v. view v.now) result ≡ part_of i (view self.now.document) }
    {
        match &self.document {
            Value::Object(members) => part_at(members, i),
            _ => self.document.get(i as usize),
        }
    }

    /// The i-th key of a map.
    pub(crate) fn key(&self, i: u64) -> Option<&str>
        ensures { option_map (λ k. k.now) result ≡ option_and_then (λ es. slice_get (keys_of es) i) (entries_part (tree_value self.now)) }
    {
        match &self.document {
            Value::Object(members) => key_at(members, i),
            _ => None,
        }
    }

    /// The position of a key in a map.
    pub(crate) fn place_of(&self, key: &[u8]) -> Option<u64>
        requires { IsSome (option_map (place_of_key key.now) (entries_part (tree_value self.now))) }
        ensures { Some result ≡ option_map (place_of_key key.now) (entries_part (tree_value self.now)) }
    {
        match &self.document {
            Value::Object(members) => place_in(members, key),
            _ => unreachable!(),
        }
    }

    /// The value as compact JSON (RFC 8259).
    #[tactic(auto, using(crate::proofs::Texts::text_same, crate::proofs::Texts::no_float))]
    pub(crate) fn json(&self, alloc: Global) -> Result<String, AllocError>
        ensures { IfOk result (λ s. string_bytes s ≡ json_text (tree_value self.now)) }
    {
        let text = self.document.to_string(alloc)?;
        Ok(text)
    }

    /// The bytes of a text.
    pub(crate) fn text(&self) -> Option<&str>
        ensures { option_map (λ t. t.now) result ≡ text_part (tree_value self.now) }
    {
        match &self.document {
            Value::String(text) => Some(text.as_str()),
            _ => None,
        }
    }

    /// The map with one more entry, under a key that it does not have.
    pub(crate) fn put(&self, alloc: Global, key: &str, value: &Tree) -> Result<Tree, AllocError>
        requires map { IsSome (option_and_then (λ es. put_of es key.now (tree_value value.now)) (entries_part (tree_value self.now))) }
        requires shallow { value.now.depth + 1 < 2 ^ 64 }
        ensures value { IfOk result (λ t. Some (tree_value t) ≡ option_and_then (λ es. put_of es key.now (tree_value value.now)) (entries_part (tree_value self.now))) }
        ensures depth { IfOk result (λ t. t.depth ≡ max self.now.depth (value.now.depth + 1)) }
    {
        let member = value.document.clone()?;
        let depth = self.depth.max(value.depth + 1);
        match self.document.clone()? {
            Value::Object(mut members) => {
                serde_json::put(&mut members, alloc, key, member)?;
                Ok(Tree {
                    document: Value::Object(members),
                    depth,
                })
            }
            _ => unreachable!(),
        }
    }

    /// The concatenation of this text or list and the other.
    #[tactic(auto, using(crate::proofs::Keys::join_ordered, crate::proofs::Trees::join_lists))]
    pub(crate) fn join(&self, other: &Tree) -> Result<Tree, AllocError>
        requires { IsSome (join_of (tree_value self.now) (tree_value other.now)) }
        ensures value { IfOk result (λ t. Some (tree_value t) ≡ join_of (tree_value self.now) (tree_value other.now)) }
        ensures depth { IfOk result (λ t. t.depth ≤ max self.now.depth other.now.depth) }
    {
        let depth = self.depth.max(other.depth);
        match self.document.clone()? {
            Value::String(mut text) => match &other.document {
                Value::String(more) => {
                    text.push_str(more.as_str())?;
                    Ok(Tree {
                        document: Value::String(text),
                        depth: 0,
                    })
                }
                _ => unreachable!(),
            },
            Value::Array(mut items) => match other.document.clone()? {
                Value::Array(mut more) => {
                    items.append(&mut more)?;
                    Ok(Tree {
                        document: Value::Array(items),
                        depth,
                    })
                }
                _ => unreachable!(),
            },
            _ => unreachable!(),
        }
    }
}
