//! How the dispatch goes on.

/// How the dispatch goes on after a step.
#[derive(Clone, Copy, Debug, PartialEq, Eq)]
pub(crate) enum Progress {
    NextStep,
    NextBinding,
    End,
}
