//! The roots of a review as values.

ghost use Rattle.std.specs.Prelude.{◌≡◌, ◌≤◌, map, ◌++◌, IsOk, IfOk, OnOk};
ghost use Rattle.std.specs.List.{AllByRecursion};
ghost use Rattle.serde_json.specs.View.{view};
ghost use Rattle.value_store.specs.Value.{value};
ghost use Rattle.value_store.specs.Keys.{IsDocumentOrdered};
ghost use Rattle.value_store.specs.Placing.{first_values, charge_limit};
ghost use Rattle.value_store.specs.Roots.{root_of, start_contents, is_root as may_be_root};
ghost use Rattle.value_store.specs.Plain.{plain_value, size_in, charge_in};
ghost use Rattle.value_store.specs.Nodes.{stored_values};

use crate::limits::CHARGE_LIMIT;
use crate::measure::measure_document;
use crate::node::Node;
use crate::table_error::TableError;
use crate::tree::Tree;
use serde_json::Value;
use std::alloc::{AllocError, Global};

/// The initial charge of a store of a review's five roots, in the order of `PlainTable::of_roots`, or the error that
/// `of_roots` returns for them. Allocates nothing; the recursion is as deep as the documents. The keys of each object
/// in valid roots are in byte order without duplicates.
#[tactic(auto, using(crate::proofs::Starting::judging_step, std::proofs::lemmas::List::drop_all, std::proofs::lemmas::List::drop_more))]
pub fn start_charge(roots: &[Value; 5]) -> Result<u64, TableError>
    ensures charge { result ≡ charge_in (start_contents (map view roots.now)) }
    ensures limit { IfOk result (λ charge. charge ≤ charge_limit) }
    ensures ordered { OnOk result (AllByRecursion IsDocumentOrdered (map view roots.now)) }
{
    let mut charge = 0u64;
    let mut place = 4u64;
    for root in roots {
        let size = root_size(place, root)?;
        charge = charge.saturating_add(size);
        place += 1;
    }
    if charge > CHARGE_LIMIT {
        return Err(TableError::RootsTooLarge);
    }
    Ok(charge)
}

// The size of the root at a reference.
#[tactic(auto, using(crate::proofs::Documents::other_value, crate::proofs::Measures::no_part, crate::proofs::Measures::part, crate::proofs::Documents::whole_value))]
fn root_size(place: u64, root: &Value) -> Result<u64, TableError>
    ensures size { result ≡ size_in (root_of place (view root.now)) }
    ensures ordered { OnOk result (IsDocumentOrdered (view root.now)) }
{
    if !is_root(root) {
        return Err(TableError::NotAnObject(place));
    }
    match measure_document(root) {
        Some(measure) => Ok(measure.size),
        None => Err(TableError::NumberOutOfInt64(place)),
    }
}

fn is_root(document: &Value) -> bool
    ensures { result ≡ may_be_root (view document.now) }
{
    match document {
        Value::Null => true,
        Value::Object(_members) => true,
        _ => false,
    }
}

/// The nodes of a table of these roots.
#[tactic(auto, using(crate::proofs::Starting::next_shallow, crate::proofs::Starting::started, std::proofs::lemmas::List::drop_more))]
pub(crate) fn start_nodes(alloc: Global, roots: &[Value; 5]) -> Result<Vec<Node>, AllocError>
    requires { IsOk (start_contents (map view roots.now)) }
    ensures { IfOk result (λ nodes. stored_values nodes.items ≡ first_values ++ map (λ root. value (plain_value (view root))) roots.now) }
{
    let mut nodes = first_nodes(alloc)?;
    for root in roots {
        nodes.push(Node::Value(Tree::of_document(root)?))?;
    }
    Ok(nodes)
}

// The error, null, false and true.
fn first_nodes(alloc: Global) -> Result<Vec<Node>, AllocError>
    ensures { IfOk result (λ nodes. stored_values nodes.items ≡ first_values) }
{
    let mut nodes = Vec::with_capacity(alloc, 9)?;
    nodes.push(Node::Error)?;
    nodes.push(Node::Value(Tree::of_document(&Value::Null)?))?;
    nodes.push(Node::Value(Tree::of_document(&Value::Bool(false))?))?;
    nodes.push(Node::Value(Tree::of_document(&Value::Bool(true))?))?;
    Ok(nodes)
}
