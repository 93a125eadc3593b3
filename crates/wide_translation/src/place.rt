//! How iteration names are written.

use wide_kinds::ValueKind;

/// How an iteration name is written.
#[derive(Drop)]
pub(crate) enum Place {
    /// As itself, or as the name that stands for it. Its value is of this kind.
    Itself(ValueKind),
    /// As the first item of the pair of this name.
    Key(String),
    /// As the second item of the pair of this name.
    Value(String),
    /// Not at all.
    Unused,
}
