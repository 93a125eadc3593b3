//! Compiles CEL expressions to code of the machine.
#![tactic(auto)]

mod code_error;
mod emission;
mod emitter;
mod laws;

pub use code_error::CodeError;
pub use emission::{expression, variable};
pub use emitter::Emitter;
pub use laws::too_long_stays;
pub use tree_code::{
    code_gives, code_is_short, costs_stand, expression_gives, routine_gives, routine_is_passed,
    texts_stay, typed_has_code, variables_join,
};
