//! The translation of a policy, ready to be written.

/// What is written for a policy that is translated.
#[derive(Drop)]
pub struct Translation {
    /// The lines of standard error on the message expressions that are left out.
    pub notes: Vec<u8>,
    /// The text of the policy of the translations.
    pub text: Vec<u8>,
}
