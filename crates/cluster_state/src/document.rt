//! Documents of a state.

use serde_json::Value;

/// A document of a state. Its number is the place of its item among the items of the state.
#[derive(Clone, Copy, Debug, Drop)]
pub struct Document<'a> {
    pub number: usize,
    pub value: &'a Value,
}
