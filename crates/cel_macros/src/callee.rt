//! The callees of calls and methods.

ghost use Rattle.std.specs.Prelude.{◌≡◌, IfOk};
ghost use Rattle.cel_macros.specs.Callee.{callee_named, callee_view};

use crate::function::Function;
use crate::text_test::TextTest;
use std::alloc::{AllocError, Global};

/// The callee of a call or a method.
#[derive(Debug, Drop)]
pub enum Callee {
    Function(Function),
    Test(TextTest),
    /// A name that is neither; it never type-checks.
    Unknown(String),
}

impl Callee {
    /// The callee with this name.
    #[tactic(auto, unfolding(crate::specs::Callee::callee_named))]
    pub(crate) fn of_name(alloc: Global, name: &str) -> Result<Callee, AllocError>
        ensures { IfOk result (λ c. callee_view c ≡ callee_named name.now) }
    {
        if let Some(function) = Function::of_name(name) {
            return Ok(Callee::Function(function));
        }
        match TextTest::of_name(name) {
            Some(test) => Ok(Callee::Test(test)),
            None => Ok(Callee::Unknown(String::from_str(alloc, name)?)),
        }
    }
}
