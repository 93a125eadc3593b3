//! Fields of JSON documents: texts, keys, lists and members, as `serde_json` reads them.
#![tactic(auto)]

mod documents;
mod fields;
mod keys;
mod members;
mod texts;

pub use documents::parse_document;
pub use fields::{array_of, field, field_of, is_absent, is_object_or_absent};
pub use keys::has_only_keys;
pub use members::{member, others, put_if, without_null, without_nulls};
pub use texts::{equals_string, text, text_or_empty};
