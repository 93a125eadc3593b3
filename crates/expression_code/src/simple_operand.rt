//! Values that one instruction loads into a register.

/// A value that one instruction loads into any register.
#[derive(Clone, Copy)]
pub enum SimpleOperand {
    /// The value with this reference.
    Reference(i32),
    /// The value whose reference is in this word of the frame.
    Word(usize),
}
