//! What an image is made from.

/// What an image is made from.
#[derive(Clone, Copy)]
pub enum SourceKind {
    /// The document of a policy.
    PolicyDocument,
    /// The text of a program.
    ProgramText,
}
