//! The tests of two texts.

/// A test of two texts.
#[derive(Clone, Copy)]
pub(crate) enum TextTest {
    /// The first starts with the second.
    Starts,
    /// The first ends with the second.
    Ends,
    /// The first contains the second.
    Contains,
}
