//! Label selectors, match resources and admission requests, read from JSON documents.
#![tactic(auto)]

mod field_error;
mod group_version_kind;
mod matching;
mod object_labels;
mod request;
mod resource_patterns;
pub mod rows;
mod rules;
mod selectors;
mod target;
mod text_lists;

pub use field_error::FieldError;
pub use group_version_kind::GroupVersionKind;
pub use json_fields::{field, has_only_keys, text, text_or_empty};
pub use matching::{match_constraints, match_resources};
pub use object_labels::{ObjectLabels, is_text_map, labels_field};
pub use request::Request;
pub use selectors::selector;
pub use text_lists::texts;
