//! A translation that the words ask for.

use admission::MessageRule;
use std::alloc::Global;

/// The policy that is translated.
#[derive(Drop)]
pub struct TranslationOrder {
    pub alloc: Global,
    /// The file of the policy.
    pub file: String,
    /// What happens to a message expression that is refused.
    pub rule: MessageRule,
}
