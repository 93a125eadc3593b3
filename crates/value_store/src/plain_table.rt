//! A store that keeps each value whole.

ghost use Rattle.std.specs.Prelude.{◌≡◌, ◌≤◌, ◌<◌, ◌+◌, List, map, true, false, length, ◌++◌, [], ◌∷◌, OnOk, OnErr, Some, Option, slice_get, IsSome, IfSome, IfOk, option_map};
ghost use Rattle.value_store.specs.Placing.{first_values, charge_limit, is_appended};
ghost use Rattle.value_store.specs.Calls.{Places, value_at, text_at, entries_at, part_at, key_at, joined, pushed, put_in};
ghost use Rattle.serde_json.specs.View.{view};
ghost use Rattle.value_store.specs.Roots.{has_other, start_contents, StoreStarts};
ghost use Rattle.value_store.specs.Size.{depth_of};
ghost use Rattle.value_store.specs.declared.node.Node.TheVariants as node;
ghost use Rattle.value_store.specs.Nodes.{stored, stored_values, tree_value};
ghost use Rattle.value_store.specs.Plain.{deepest, has_first_values, own_place, plain_value};

use crate::equality::same;
use crate::membership::among;
use crate::node::Node;
use crate::order::below;
use crate::roots::{start_charge, start_nodes};
use crate::shape::Shape;
use crate::store::ValueStore;
use crate::table_error::TableError;
use crate::tree::Tree;
use serde_json::Value;
use std::alloc::{AllocError, Global};

/// The plain store: whole trees in a list. A copied item, a placed value and a list with
/// an appended item are each a separate tree.
#[derive(Drop)]
pub struct PlainTable {
    nodes: Vec<Node>,
    charge: u64,
    // The error, null, false and true come first.
    ghost first: { has_first_values (stored_values nodes.items) ≡ true },
    // A call makes a value at most 1 deeper than the values in the table.
    ghost shallow: { deepest (stored_values nodes.items) ≤ charge_limit + length (stored_values nodes.items) },
    ghost charged: { charge ≤ charge_limit },
}

impl PlainTable {
    /// The table of the five roots of a review, in the order object, oldObject, params, namespaceObject and request,
    /// at the references 4 to 8, charged with their sizes. The recursion is as deep as the documents.
    ///
    /// The first invalid root decides: `NotAnObject` if it is neither an object nor null, `NumberOutOfInt64` if it
    /// contains a number that is not a signed 64-bit integer (`-0` is not one). Then `RootsTooLarge` if the charge is
    /// above 16,777,216. All this is checked before anything is allocated.
    #[tactic(auto, using(crate::proofs::Starting::opened, crate::proofs::Starting::refused))]
    pub fn of_roots(alloc: Global, roots: &[Value; 5]) -> Result<PlainTable, TableError>
        ensures { StoreStarts (λ t. record { values = ⟦<PlainTable as ValueStore>⟧.values t; charge = ⟦<PlainTable as ValueStore>⟧.charge t }) (start_contents (map view roots.now)) result }
    {
        let charge = start_charge(roots)?;
        let nodes = start_nodes(alloc, roots)?;
        Ok(PlainTable { nodes, charge })
    }

    // The value at a reference, unless it is invalid or refers to the error.
    #[tactic(auto, using(crate::proofs::Tables::stored_at, crate::proofs::Tables::within_deepest, std::proofs::lemmas::Option::slice_get_read))]
    fn tree(&self, h: u64) -> Option<&Tree>
        ensures value { option_map (λ t. tree_value t.now) result ≡ value_at (slice_get (stored_values self.now.nodes.items) h) }
        ensures shallow { IfSome result (λ t. t.now.depth ≤ charge_limit + length (stored_values self.now.nodes.items)) }
    {
        match self.nodes.get(h as usize) {
            Some(node) => node.tree(),
            None => None,
        }
    }

    fn value(&self, h: u64) -> &Tree
        requires { IsSome (value_at (slice_get (stored_values self.now.nodes.items) h)) }
        ensures value { Some (tree_value result.now) ≡ value_at (slice_get (stored_values self.now.nodes.items) h) }
        ensures shallow { result.now.depth ≤ charge_limit + length (stored_values self.now.nodes.items) }
    {
        self.tree(h).unwrap()
    }

    // Appends a value that is neither null nor a bool.
    fn place(&mut self, tree: Tree) -> Result<u64, AllocError>
        requires kind { is_appended (tree_value tree) ≡ true }
        requires shallow { tree.depth ≤ charge_limit + length (stored_values self.old.nodes.items) + 1 }
        ensures placed { Places (stored_values self.old.nodes.items) (tree_value tree) result (stored_values self.new.nodes.items) }
        ensures charge { self.new.charge ≡ self.old.charge }
    {
        let place = self.nodes.len() as u64;
        self.nodes.push(Node::Value(tree))?;
        Ok(place)
    }
}

// The fixed reference of null, false or true.
fn first_place(document: &Value) -> Option<u64>
    ensures { result ≡ own_place (plain_value (view document.now)) }
{
    match document {
        Value::Null => Some(1),
        Value::Bool(false) => Some(2),
        Value::Bool(true) => Some(3),
        _ => None,
    }
}

// The calls that place a value. Each value is at most 1 deeper than those in the table.
impl PlainTable {
    #[tactic(auto, using(crate::proofs::Parts::part_is, crate::proofs::Parts::part_there, crate::proofs::Parts::part_within))]
    fn part(&self, h: u64, i: u64) -> &Value
        requires { IsSome (part_at (slice_get (stored_values self.now.nodes.items) h) i) }
        ensures value { part_at (slice_get (stored_values self.now.nodes.items) h) i ≡ Some (plain_value (view result.now)) }
        ensures whole { has_other (view result.now) ≡ false }
        ensures shallow { depth_of (plain_value (view result.now)) ≤ charge_limit + length (stored_values self.now.nodes.items) }
    {
        self.value(h).part(i).unwrap()
    }

    fn key(&self, h: u64, i: u64) -> Result<Tree, AllocError>
        requires { IsSome (key_at (slice_get (stored_values self.now.nodes.items) h) i) }
        ensures value { IfOk result (λ t. key_at (slice_get (stored_values self.now.nodes.items) h) i ≡ Some (tree_value t)) }
        ensures shallow { IfOk result (λ t. t.depth ≤ charge_limit + length (stored_values self.now.nodes.items) + 1) }
    {
        let key = self.value(h).key(i).unwrap();
        Tree::of_text(*self.nodes.allocator(), key)
    }

    fn joined(&self, a: u64, b: u64) -> Result<Tree, AllocError>
        requires { IsSome (joined (slice_get (stored_values self.now.nodes.items) a) (slice_get (stored_values self.now.nodes.items) b)) }
        ensures value { IfOk result (λ t. joined (slice_get (stored_values self.now.nodes.items) a) (slice_get (stored_values self.now.nodes.items) b) ≡ Some (tree_value t)) }
        ensures shallow { IfOk result (λ t. t.depth ≤ charge_limit + length (stored_values self.now.nodes.items) + 1) }
    {
        self.value(a).join(self.value(b))
    }

    fn pushed(&self, l: u64, x: u64) -> Result<Tree, AllocError>
        requires { IsSome (pushed (slice_get (stored_values self.now.nodes.items) l) (slice_get (stored_values self.now.nodes.items) x)) }
        ensures value { IfOk result (λ t. pushed (slice_get (stored_values self.now.nodes.items) l) (slice_get (stored_values self.now.nodes.items) x) ≡ Some (tree_value t)) }
        ensures shallow { IfOk result (λ t. t.depth ≤ charge_limit + length (stored_values self.now.nodes.items) + 1) }
    {
        self.value(l).push(self.value(x))
    }

    fn with_entry(&self, m: u64, k: u64, x: u64) -> Result<Tree, AllocError>
        requires { IsSome (put_in (slice_get (stored_values self.now.nodes.items) m) (slice_get (stored_values self.now.nodes.items) k) (slice_get (stored_values self.now.nodes.items) x)) }
        ensures value { IfOk result (λ t. put_in
            (slice_get (stored_values self.now.nodes.items) m)
            (slice_get (stored_values self.now.nodes.items) k)
            (slice_get (stored_values self.now.nodes.items) x) ≡ Some (tree_value t)) }
        ensures shallow { IfOk result (λ t. t.depth ≤ charge_limit + length (stored_values self.now.nodes.items) + 1) }
    {
        let key = self.value(k).text().unwrap();
        self.value(m)
            .put(*self.nodes.allocator(), key, self.value(x))
    }
}

#[tactic(auto, using(crate::proofs::Tables::stored_same))]
fn copies(nodes: &Vec<Node>) -> Result<Vec<Node>, AllocError>
    ensures { IfOk result (λ copies. stored_values copies.items ≡ stored_values nodes.now.items) }
{
    let copies = nodes.clone()?;
    Ok(copies)
}

impl ValueStore for PlainTable {
    ghost use Rattle.value_store.specs.Nodes.{stored_values};

    ghost values = { λ t. stored_values t.nodes.items };

    ghost charge = { λ t. t.charge };

    #[tactic(auto, using(crate::proofs::Ordered::nodes_ordered))]
    fn len(&self) -> u64 {
        self.nodes.len() as u64
    }

    fn charge(&self) -> u64 {
        self.charge
    }

    fn spend(&mut self, n: u64) {
        self.charge += n;
    }

    fn at(&self, h: u64) -> Option<Shape<'_>> {
        match self.nodes.get(h as usize) {
            Some(node) => Some(node.shape()),
            None => None,
        }
    }

    fn text(&self, h: u64) -> Option<&str> {
        match self.tree(h) {
            Some(tree) => tree.text(),
            None => None,
        }
    }

    fn depth(&self, h: u64) -> u64 {
        self.nodes[h as usize].depth()
    }

    fn equal(&mut self, a: u64, b: u64) -> bool {
        same(&self.value(a).document, &self.value(b).document)
    }

    fn less(&self, a: u64, b: u64) -> bool {
        below(&self.value(a).document, &self.value(b).document).unwrap()
    }

    fn member(&mut self, x: u64, c: u64) -> bool {
        among(&self.value(x).document, &self.value(c).document).unwrap()
    }

    fn find(&self, m: u64, key: &[u8]) -> Option<u64> {
        self.value(m).place_of(key)
    }

    fn json(&self, h: u64) -> Result<String, AllocError> {
        self.nodes[h as usize].json(*self.nodes.allocator())
    }

    fn json_length(&self, h: u64) -> u64 {
        self.nodes[h as usize].json_length()
    }

    fn place_int(&mut self, n: i64) -> Result<u64, AllocError> {
        self.place(Tree::of_int(n))
    }

    fn place_text(&mut self, s: &str) -> Result<u64, AllocError> {
        let tree = Tree::of_text(*self.nodes.allocator(), s)?;
        self.place(tree)
    }

    fn alias(&mut self, h: u64, i: u64) -> Result<u64, AllocError> {
        let part = self.part(h, i);
        match first_place(part) {
            Some(place) => Ok(place),
            None => {
                let tree = Tree::of_document(part)?;
                self.place(tree)
            }
        }
    }

    fn alias_key(&mut self, h: u64, i: u64) -> Result<u64, AllocError> {
        let tree = self.key(h, i)?;
        self.place(tree)
    }

    fn join(&mut self, a: u64, b: u64) -> Result<u64, AllocError> {
        let tree = self.joined(a, b)?;
        self.place(tree)
    }

    fn new_list(&mut self) -> Result<u64, AllocError> {
        let tree = Tree::new_list(*self.nodes.allocator());
        self.place(tree)
    }

    fn new_map(&mut self) -> Result<u64, AllocError> {
        let tree = Tree::new_map(*self.nodes.allocator());
        self.place(tree)
    }

    fn push(&mut self, l: u64, x: u64) -> Result<u64, AllocError> {
        let tree = self.pushed(l, x)?;
        self.place(tree)
    }

    fn put(&mut self, m: u64, k: u64, x: u64) -> Result<u64, AllocError> {
        let tree = self.with_entry(m, k, x)?;
        self.place(tree)
    }

    fn copy(&self) -> Result<Self, AllocError> {
        let nodes = copies(&self.nodes)?;
        Ok(PlainTable {
            nodes,
            charge: self.charge,
        })
    }
}
