//! The two truths of a logical operator.

/// The reference of the truth that decides an operator, and that of the other truth.
#[derive(Clone, Copy)]
pub(crate) struct Truths {
    pub(crate) decides: i32,
    pub(crate) other: i32,
}
