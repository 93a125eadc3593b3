//! Why a text does not assemble.

ghost use Rattle.std.specs.Prelude.{◌≡◌};
ghost use Rattle.assembler.specs.declared.asm_error.AsmError.TheVariants.{Memory};

use std::alloc::{AllocError, AllocFailed};
use std::fmt;
use thiserror::Error;

/// Why a text cannot be assembled. The number in a variant is that of the line, counted from 1.
#[derive(Clone, Copy, Debug, PartialEq, Eq, Error)]
pub enum AsmError {
    /// The line is not an instruction, a slot or a label.
    UnknownLine(usize),
    /// An immediate or an offset of the line is outside the range of its field.
    NumberOutOfRange(usize),
    /// No line defines the label that the line jumps to.
    UnknownLabel(usize),
    /// An earlier line defines the same label.
    DuplicateLabel(usize),
    /// The offset to the label does not fit the signed 16 bits of the line's jump.
    JumpTooFar(usize),
    /// The lines up to and including this one have more than 65,536 slots.
    TooManySlots(usize),
    /// An allocation failed.
    Memory,
}

impl AsmError {
    ghost use Rattle.std.specs.Prelude.{◌≤◌, length};
    ghost use Rattle.assembler.specs.ErrorCodes.{asm_error_code, asm_error_line};

    /// The error's code: `A1` to `A6`, or `memory`.
    pub fn code(&self) -> &'static str
        ensures text { result.now ≡ asm_error_code self.now }
        ensures length { length result.now ≤ 6 }
    {
        match self {
            AsmError::UnknownLine(_) => "A1",
            AsmError::NumberOutOfRange(_) => "A2",
            AsmError::UnknownLabel(_) => "A3",
            AsmError::DuplicateLabel(_) => "A4",
            AsmError::JumpTooFar(_) => "A5",
            AsmError::TooManySlots(_) => "A6",
            AsmError::Memory => "memory",
        }
    }

    /// The message, without the line.
    fn message(&self) -> &'static str {
        match self {
            AsmError::UnknownLine(_) => "is no instruction, slot or label",
            AsmError::NumberOutOfRange(_) => "has a number that is out of range",
            AsmError::UnknownLabel(_) => "jumps to a label that no line names",
            AsmError::DuplicateLabel(_) => "names a label a second time",
            AsmError::JumpTooFar(_) => "jumps to a label that is too far away",
            AsmError::TooManySlots(_) => "is past the 65536 slots that a program can have",
            AsmError::Memory => "out of memory",
        }
    }

    /// The line at which the text is refused, counted from 1.
    pub fn line(&self) -> Option<usize>
        ensures { result ≡ asm_error_line self.now }
    {
        match *self {
            AsmError::UnknownLine(line)
            | AsmError::NumberOutOfRange(line)
            | AsmError::UnknownLabel(line)
            | AsmError::DuplicateLabel(line)
            | AsmError::JumpTooFar(line)
            | AsmError::TooManySlots(line) => Some(line),
            AsmError::Memory => None,
        }
    }
}

impl fmt::Display for AsmError {
    fn fmt<W: fmt::Write>(&self, f: &mut fmt::Formatter<W>) -> fmt::Result {
        let message = self.message();
        match self.line() {
            Some(line) => write!(f, "line {line} {message}"),
            None => write!(f, "{message}"),
        }
    }
}

impl From<AllocError> for AsmError {
    ghost from_gives = { λ _ e. e ≡ Memory };

    fn from(_error: AllocError) -> AsmError {
        AsmError::Memory
    }
}

impl<T: Drop> From<AllocFailed<T>> for AsmError {
    ghost from_gives = { λ _ e. e ≡ Memory };

    fn from(_error: AllocFailed<T>) -> AsmError {
        AsmError::Memory
    }
}
