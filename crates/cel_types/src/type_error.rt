//! Why an expression has no type.

use thiserror::Error;

/// Why an expression has no type: the error of its first part without a type.
#[derive(Clone, Copy, Debug, PartialEq, Eq, Error)]
pub enum TypeError {
    /// A name is neither a root nor an iteration name.
    #[error("a name is unknown")]
    UnknownIdentifier,
    /// No operator, function, method or macro accepts operands of these types.
    #[error("nothing takes operands of these types")]
    NoMatchingOverload,
    /// `variables` is used in another way than `variables.name` with a variable in scope.
    #[error("`variables` stands before no variable in scope")]
    MisusedVariables,
}

impl TypeError {
    ghost use Rattle.std.specs.Prelude.{◌≡◌, ◌≤◌, length};
    ghost use Rattle.cel_types.specs.ErrorCodes.{type_error_code};

    /// The error's code: `Y1` to `Y3`.
    pub fn code(&self) -> &'static str
        ensures text { result.now ≡ type_error_code self.now }
        ensures length { length result.now ≤ 6 }
    {
        match self {
            TypeError::UnknownIdentifier => "Y1",
            TypeError::NoMatchingOverload => "Y2",
            TypeError::MisusedVariables => "Y3",
        }
    }
}
