//! What is known of the variables of a policy.

ghost use Rattle.std.specs.Prelude.{◌≡◌, [], ◌∷◌, ◌++◌, OnOk, OnErr};
ghost use Rattle.wide_reader.specs.Tree as wide;
ghost use Rattle.wide_widths.specs.Narrow as widths;
ghost use Rattle.wide_indices.specs.Narrow as specs;
ghost use Rattle.wide_indices.specs.Narrow.{outside};

use crate::names::Names;
use crate::ranges::has_narrow_ranges;
use crate::widths::is_narrow;
use std::alloc::{AllocError, Global};
use std::marker::Model;
use wide_reader::Wide;

/// A variable, and whether its value is narrow.
#[derive(Debug, Drop)]
pub struct KnownVariable {
    pub(crate) name: String,
    pub(crate) is_narrow: bool,
}

/// Which of the variables that an expression may use have narrow values.
#[derive(Debug, Drop)]
pub struct KnownVariables {
    variables: Vec<KnownVariable>,
}

impl Model for KnownVariables {
    ghost use Rattle.std.specs.Prelude.{ℕ, Bool, List, map};
    ghost use Rattle.wide_indices.specs.Known.{known_view};

    ghost Value = { List (List ℕ × Bool) };

    ghost view = { λ s. map known_view s.variables.items };
}

impl KnownVariables {
    /// No variables. Nothing is allocated.
    pub fn new(alloc: Global) -> Self
        ensures { result ≡ [] }
    {
        KnownVariables {
            variables: Vec::new(alloc),
        }
    }

    /// Adds a variable with its expression, which may use those before it. If two variables have the same name, the
    /// first one is used.
    pub fn add(&mut self, name: &str, e: &Wide) -> Result<(), AllocError>
        ensures ok { OnOk result (self.new ≡ self.old ++ (name.now, widths.is_narrow (outside self.old) (wide.view e.now)) ∷ []) }
        ensures err { OnErr result (self.new ≡ self.old) }
    {
        let known = is_narrow(e, &Names::Outside(self.variables.as_slice()));
        let alloc = *self.variables.allocator();
        let name = String::from_str(alloc, name)?;
        self.variables.push(KnownVariable {
            name,
            is_narrow: known,
        })?;
        Ok(())
    }

    /// Whether each range in an expression of which a macro with two names uses the keys or indices is narrow.
    pub fn has_narrow_ranges(&self, e: &Wide) -> bool
        ensures { result ≡ specs.has_narrow_ranges (outside self.now) (wide.view e.now) }
    {
        has_narrow_ranges(e, &Names::Outside(self.variables.as_slice()))
    }
}
