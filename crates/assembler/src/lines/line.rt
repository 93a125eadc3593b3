//! Lines of a program's text.

use crate::lines::jump::Jump;
use insn_codec::Statement;

/// A parsed line.
#[derive(Clone, Copy)]
pub enum Line<'a> {
    /// Code, exactly as written.
    Statement(Statement),
    /// A label for the next slot.
    Label(&'a str),
    /// A jump to the slot of this label.
    Jump(Jump, &'a str),
}
