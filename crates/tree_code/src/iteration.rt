//! The range and the name of a macro.

use cel_macros::Core;

/// The range of a macro, and the name of the current item.
#[derive(Clone, Copy)]
pub(crate) struct Iteration<'a> {
    pub(crate) name: &'a str,
    pub(crate) range: &'a Core,
}
