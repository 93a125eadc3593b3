//! The parts of a policy that have an expression.

ghost use Rattle.std.specs.Prelude.{◌≡◌, ◌≤◌, length, Some};
ghost use Rattle.policy_glue.specs.CompileErrors.{kind_text};

use std::fmt;

/// The part of a policy that an expression belongs to.
#[derive(Clone, Copy, Debug, PartialEq, Eq)]
pub enum PartKind {
    /// A variable.
    Variable,
    /// A match condition.
    Condition,
    /// A validation.
    Validation,
    /// The message of a validation.
    Message,
}

impl PartKind {
    /// The word that error messages use for it.
    pub fn word(self) -> &'static str
        ensures text { result.now ≡ kind_text self }
        ensures length { length result.now ≤ 10 }
    {
        match self {
            PartKind::Variable => "variable",
            PartKind::Condition => "condition",
            PartKind::Validation => "validation",
            PartKind::Message => "message",
        }
    }
}

impl fmt::Display for PartKind {
    ghost output = { λ k. Some (kind_text k) };

    fn fmt<W: fmt::Write>(&self, f: &mut fmt::Formatter<W>) -> fmt::Result {
        f.write_str(self.word())
    }
}
