//! Whether a namespace selector lets a request pass.

use crate::trouble::Trouble;

/// Whether a namespace selector lets a request pass.
#[derive(Clone, Copy)]
pub(crate) enum NamespaceAnswer {
    Passes,
    KeptOut,
    /// The labels of the namespace are unknown.
    NoLabels(Trouble),
}
