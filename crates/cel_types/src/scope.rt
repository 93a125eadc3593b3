//! Scopes.

ghost use Rattle.std.specs.Prelude.{◌≡◌, [], ◌∷◌, ◌++◌, OnOk, OnErr, map};
ghost use Rattle.cel_types.specs.Declarations.{declaration, declared};

use crate::cel_type::CelType;
use crate::variable::Variable;
use std::alloc::{AllocError, Global};
use std::marker::Model;

/// The variables that an expression may use, with their types and depths.
#[derive(Debug, Drop)]
pub struct Scope {
    variables: Vec<Variable>,
}

impl Model for Scope {
    ghost use Rattle.std.specs.Prelude.{List, map};
    ghost use Rattle.cel_types.specs.Declarations.{Declaration, declaration};

    ghost Value = { List Declaration };

    ghost view = { λ s. map declaration s.variables.items };
}

impl Scope {
    /// An empty scope. Nothing is allocated.
    pub fn new(alloc: Global) -> Self
        ensures { result ≡ [] }
    {
        Scope {
            variables: Vec::new(alloc),
        }
    }

    /// Adds a variable. If two variables have the same name, the first one is used.
    pub fn add(&mut self, name: &str, cel_type: CelType, depth: u64) -> Result<(), AllocError>
        ensures ok { OnOk result (self.new ≡ self.old ++ declared name.now cel_type depth ∷ []) }
        ensures err { OnErr result (self.new ≡ self.old) }
    {
        let alloc = *self.variables.allocator();
        let name = String::from_str(alloc, name)?;
        self.variables.push(Variable {
            name,
            cel_type,
            depth,
        })?;
        Ok(())
    }

    /// The variables, in the order in which they were added.
    pub fn variables(&self) -> &[Variable]
        ensures { map declaration result.now ≡ self.now }
    {
        self.variables.as_slice()
    }
}
