//! One entry of the plain table: the error or a value.

ghost use Rattle.std.specs.Prelude.{◌≡◌, ◌<◌, ◌^◌, option_map, string_bytes, IfSome, IfOk};
ghost use Rattle.value_store.specs.Size.{result_depth};
ghost use Rattle.value_store.specs.Calls.{value_part};
ghost use Rattle.value_store.specs.Json.{json_length, shown_text};
ghost use Rattle.value_store.specs.Seen.{outcome_view, shape_view, seen_size};

use crate::json_length::text_length;
use crate::limits::JSON_LENGTH_LIMIT;
use crate::shape::Shape;
use crate::tree::Tree;
use std::alloc::{AllocError, Global};

/// The error, or a value.
#[derive(Drop)]
pub(crate) enum Node {
    Error,
    Value(Tree),
}

impl Node {
    ghost use Rattle.value_store.specs.Nodes.{stored, tree_value};

    pub(crate) fn depth(&self) -> u64
        ensures { result ≡ result_depth (stored self.now) }
    {
        match self {
            Node::Error => 0,
            Node::Value(tree) => tree.depth,
        }
    }

    /// The value, unless this is the error.
    pub(crate) fn tree(&self) -> Option<&Tree>
        ensures value { option_map (λ t. tree_value t.now) result ≡ value_part (stored self.now) }
        ensures depth { IfSome result (λ t. t.now.depth ≡ result_depth (stored self.now)) }
    {
        match self {
            Node::Error => None,
            Node::Value(tree) => Some(tree),
        }
    }

    /// The entry as text: `error`, or the value as JSON.
    pub(crate) fn json(&self, alloc: Global) -> Result<String, AllocError>
        ensures { IfOk result (λ s. string_bytes s ≡ shown_text (stored self.now)) }
    {
        match self {
            Node::Error => String::from_str(alloc, "error"),
            Node::Value(tree) => tree.json(alloc),
        }
    }

    /// The length of this text.
    pub(crate) fn json_length(&self) -> u64
        ensures { result ≡ json_length (stored self.now) }
    {
        match self {
            Node::Error => 5,
            Node::Value(tree) => text_length(&tree.document).min(JSON_LENGTH_LIMIT),
        }
    }

    pub(crate) fn shape(&self) -> Shape<'_>
        ensures shape { shape_view result ≡ outcome_view (stored self.now) }
        ensures short { seen_size (shape_view result) < 2 ^ 63 }
    {
        match self {
            Node::Error => Shape::Error,
            Node::Value(tree) => tree.shape(),
        }
    }
}

// Written by hand, since a derived one states nothing about the trees.
impl Clone for Node {
    ghost use Rattle.value_store.specs.Nodes.{stored};

    ghost is_clone = { λ node copy. stored copy ≡ stored node };

    fn clone(&self) -> Result<Node, AllocError> {
        match self {
            Node::Error => Ok(Node::Error),
            Node::Value(tree) => Ok(Node::Value(tree.copy()?)),
        }
    }
}
