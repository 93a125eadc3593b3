//! The words of the frame that hold items, the value of a path and those of lists.

use crate::path::Path;
use cel_macros::Core;

/// The words of the frame that hold the items of the macros around an expression, the innermost
/// first, or the value of a root's field outside all macros; and the lists that it keeps.
#[derive(Drop)]
pub(crate) enum FrameWords<'a> {
    /// Outside all macros, with the items of each kept list.
    Outside(&'a [&'a [Core]]),
    /// Outside all macros, and word 0 keeps the value of this path.
    Keeping(Path<'a>, &'a [&'a [Core]]),
    /// Inside a macro: the iteration name, the word that holds its item, and the words of the
    /// macros around it.
    Within(&'a str, usize, &'a FrameWords<'a>),
}
