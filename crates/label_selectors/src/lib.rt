//! Label selectors of Kubernetes: the labels that they select, and the selectors that the API
//! server stores.
#![tactic(auto)]

mod grammar;
mod label;
mod label_pairs;
mod label_selector;
mod labels;
pub mod laws;
mod operator;
mod requirement;
mod selector_error;
mod storing;

pub use grammar::{is_label_key, is_label_value};
pub use label::Label;
pub use label_pairs::LabelPairs;
pub use label_selector::LabelSelector;
pub use labels::Labels;
pub use operator::Operator;
pub use requirement::Requirement;
pub use selector_error::SelectorError;
pub use storing::{check_label, check_requirement};
