//! Which names are allowed.

ghost use Rattle.std.specs.Prelude.{◌≡◌};
ghost use Rattle.verdicts.specs.Reading.{allows};

use cel_reader::is_identifier;

/// Which names are allowed.
#[derive(Clone, Copy, Debug, PartialEq, Eq)]
pub enum NameRule {
    /// Any name that is not empty: for match conditions.
    NotEmpty,
    /// Identifiers that CEL does not reserve: for variables.
    Identifier,
}

impl NameRule {
    /// Whether the name is allowed.
    pub fn allows(self, name: &str) -> bool
        ensures { result ≡ allows self name.now }
    {
        match self {
            NameRule::NotEmpty => !name.is_empty(),
            NameRule::Identifier => is_identifier(name.as_bytes()),
        }
    }
}
