//! Why a line is invalid.

/// Why a line is invalid.
#[derive(Clone, Copy)]
pub(crate) enum LineError {
    /// The line has no valid form.
    NoForm,
    /// An immediate or an offset is out of its range.
    OutOfRange,
}
