//! The values that a program refers to by number: their definition, and the calls of a store of values.
#![tactic(auto)]

mod equality;
mod json_length;
pub mod laws;
mod limits;
mod measure;
mod members;
mod membership;
mod node;
mod number;
mod order;
mod plain_table;
mod roots;
mod shape;
mod store;
mod table_error;
mod tree;

pub use limits::{CHARGE_LIMIT, JSON_LENGTH_LIMIT};
pub use plain_table::PlainTable;
pub use roots::start_charge;
pub use shape::Shape;
pub use store::ValueStore;
pub use table_error::TableError;
