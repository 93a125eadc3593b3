//! What the expressions of a policy may use.

ghost use Rattle.std.specs.Prelude.{◌≡◌, [], IfOk};
ghost use Rattle.wide_policy.specs.Returns.{with_variable};
ghost use Rattle.wide_policy.specs.Taking.{visible};

use std::alloc::{AllocError, Global};
use std::marker::Model;
use wide_kinds::Kind;
use wide_translation::Scope;

/// The variables that an expression may use, and whether the root `params` has tables beside the parameters.
#[derive(Debug, Drop)]
pub(crate) struct PartScope {
    variables: Scope,
    wrapped: bool,
}

impl Model for PartScope {
    ghost use Rattle.wide_policy.specs.Taking.{Visible};

    ghost Value = { Visible };

    ghost view = { λ s. record { wrapped = s.wrapped; variables = s.variables } };
}

impl PartScope {
    /// No variables. Nothing is allocated.
    pub(crate) fn new(alloc: Global, wrapped: bool) -> Self
        ensures { result ≡ visible wrapped [] }
    {
        PartScope {
            variables: Scope::new(alloc),
            wrapped,
        }
    }

    /// Adds a variable.
    pub(crate) fn add(&mut self, name: &str, kind: Kind) -> Result<(), AllocError>
        ensures { IfOk result (λ _. self.new ≡ with_variable self.old (name.now, kind)) }
    {
        self.variables.add(name, kind)
    }

    /// The variables.
    pub(crate) fn variables(&self) -> &Scope
        ensures { result.now ≡ self.now.variables }
    {
        &self.variables
    }

    /// Whether the root `params` has tables beside the parameters.
    pub(crate) fn is_wrapped(&self) -> bool
        ensures { result ≡ self.now.wrapped }
    {
        self.wrapped
    }
}
