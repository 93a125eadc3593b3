//! Where a text is stored.

/// A range of the bytes of all texts, and its measure.
#[derive(Clone, Copy, Debug, PartialEq, Eq)]
pub struct Part {
    pub from: u32,
    pub to: u32,
    /// The length of its JSON text in bytes.
    pub json: u32,
}
