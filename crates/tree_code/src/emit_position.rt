//! The position of code.

use crate::frame_words::FrameWords;
use crate::name_table::NameTable;

/// The position of an expression's code, and the meaning of names there.
#[derive(Clone, Copy)]
pub(crate) struct EmitPosition<'a> {
    /// The meaning of the names in the whole expression.
    pub(crate) around: &'a NameTable<'a>,
    /// The words of the frame that are in use.
    pub(crate) words: &'a FrameWords<'a>,
    /// The first word of the frame that the code may use.
    pub(crate) word: usize,
    /// The first slot of the code.
    pub(crate) slot: usize,
}
