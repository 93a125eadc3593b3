//! Scopes.

ghost use Rattle.std.specs.Prelude.{◌≡◌, [], ◌∷◌, ◌++◌, OnOk, OnErr, map};
ghost use Rattle.wide_translation.specs.Declarations.{declaration};

use std::alloc::{AllocError, Global};
use std::marker::Model;
use wide_kinds::Kind;

/// A variable and its kind.
#[derive(Debug, Drop)]
pub struct Variable {
    pub(crate) name: String,
    pub(crate) kind: Kind,
}

/// The variables that an expression may use.
#[derive(Debug, Drop)]
pub struct Scope {
    variables: Vec<Variable>,
}

impl Model for Scope {
    ghost use Rattle.std.specs.Prelude.{ℕ, List, map};
    ghost use Rattle.wide_kinds.specs.declared.kind.Kind.{Kind as KindOf};
    ghost use Rattle.wide_translation.specs.Declarations.{declaration};

    ghost Value = { List (List ℕ × KindOf) };

    ghost view = { λ s. map declaration s.variables.items };
}

impl Scope {
    /// An empty scope. Nothing is allocated.
    pub fn new(alloc: Global) -> Self
        ensures { result ≡ [] }
    {
        Scope {
            variables: Vec::new(alloc),
        }
    }

    /// Adds a variable. If two variables have the same name, the first one is used.
    pub fn add(&mut self, name: &str, kind: Kind) -> Result<(), AllocError>
        ensures ok { OnOk result (self.new ≡ self.old ++ (name.now, kind) ∷ []) }
        ensures err { OnErr result (self.new ≡ self.old) }
    {
        let alloc = *self.variables.allocator();
        let name = String::from_str(alloc, name)?;
        self.variables.push(Variable { name, kind })?;
        Ok(())
    }

    /// The variables, in the order in which they were added.
    pub(crate) fn variables(&self) -> &[Variable]
        ensures { map declaration result.now ≡ self.now }
    {
        self.variables.as_slice()
    }
}
