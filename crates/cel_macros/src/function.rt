//! Functions of one operand.

ghost use Rattle.std.specs.Prelude.{◌≡◌};
ghost use Rattle.cel_macros.specs.Functions.{function_named};

/// A function of one operand (cel-spec, List of Standard Definitions).
#[derive(Clone, Copy, Debug, PartialEq, Eq)]
pub enum Function {
    /// The number of code points, items or entries.
    Size,
    /// An int or a text, converted to a text.
    String,
    /// The operand itself, of type `dyn`.
    Dyn,
}

impl Function {
    /// The function of this name.
    #[tactic(auto, unfolding(crate::specs::Functions::function_named))]
    pub(crate) fn of_name(name: &str) -> Option<Function>
        ensures { result ≡ function_named name.now }
    {
        match name {
            "size" => Some(Function::Size),
            "string" => Some(Function::String),
            "dyn" => Some(Function::Dyn),
            _ => None,
        }
    }
}
