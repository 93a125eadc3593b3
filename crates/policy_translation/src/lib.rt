//! Translates a policy as clusters store it: `read_translated` reads it, and `translation_text` writes
//! the policy of the translations.
#![tactic(auto)]

mod members;
mod policy_json;
mod reading;
mod writing;

pub use members::write_text;
pub use reading::read_translated;
pub use writing::translation_text;
