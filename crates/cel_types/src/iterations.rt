//! The iteration names in scope.

/// The iteration names of the macros around an expression, the innermost first.
#[derive(Drop)]
pub(crate) enum Iterations<'a> {
    /// Outside all macros.
    Outside,
    /// Inside a macro: its iteration name, and the names of the macros around it.
    Within(&'a str, &'a Iterations<'a>),
}
