//! The shapes of arguments by which macros are recognized.

/// The shape of a method's arguments.
#[derive(Clone, Copy)]
pub(crate) enum Shape {
    /// A name and one more argument.
    Pair,
    /// A name and two more arguments.
    Triple,
    /// Any other arguments.
    Other,
}
