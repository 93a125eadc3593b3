//! Quantities of Kubernetes in texts, as an API server's CEL library reads and compares them.
#![tactic(auto)]

mod amount;
mod arithmetic;
mod exponent;
mod held;
mod integers;
pub mod laws;
mod numbers;
mod powers;
mod quantity_error;
mod reading;
mod size;
mod spelled;
mod suffixes;
mod texts;
mod unit;

pub use amount::Quantity;
pub use quantity_error::QuantityError;
pub use texts::{as_integer, is_integer, is_quantity, quantity_of, sign};
