//! Kinds of arguments.

use value_store::{Shape, ValueStore};

/// The kind of a helper's argument.
#[derive(Copy, Clone)]
pub(crate) enum Kind {
    Any,
    Int,
    Text,
    List,
    Map,
    Address,
    Length,
    Place,
    Unused,
}

impl Kind {
    /// Whether the value at a reference is of this kind.
    pub(crate) fn is_at<V: ValueStore>(self, table: &V, h: u64) -> bool {
        matches!(
            (table.at(h), self),
            (Some(Shape::Int(_)), Kind::Int)
                | (Some(Shape::Text(_)), Kind::Text)
                | (Some(Shape::List(_)), Kind::List)
                | (Some(Shape::Map(_)), Kind::Map)
                | (Some(_), Kind::Any)
        )
    }
}
