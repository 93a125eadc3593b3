//! The names of macros and of roots.

ghost use Rattle.std.specs.Prelude.{◌≡◌};
ghost use Rattle.cel_reader.specs.Tree.{view};
ghost use Rattle.cel_macros.specs.Environment as environment;
ghost use Rattle.cel_macros.specs.Macros as specs;
ghost use Rattle.cel_macros.specs.MacroFault.{is_taken};

use crate::macros::Macro;
use cel_reader::Expr;

/// The name before the dot of a variable.
pub(crate) const VARIABLES: &str = "variables";

/// The macro with this method name.
#[tactic(auto, unfolding(crate::specs::Macros::macro_named))]
pub(crate) fn macro_named(name: &str) -> Option<Macro>
    ensures { result ≡ specs.macro_named name.now }
{
    match name {
        "all" => Some(Macro::All),
        "exists" => Some(Macro::Exists),
        "exists_one" => Some(Macro::ExistsOne),
        "filter" => Some(Macro::Filter),
        "map" => Some(Macro::Map),
        _ => None,
    }
}

/// Whether this function name is that of the macro `has`.
#[tactic(auto, unfolding(crate::specs::Macros::is_has))]
pub(crate) fn is_has(name: &str) -> bool
    ensures { result ≡ specs.is_has name.now }
{
    "has" == name
}

/// Whether this method name is that of the macro `map`.
#[tactic(auto, unfolding(crate::specs::Macros::is_map))]
pub(crate) fn is_map(name: &str) -> bool
    ensures { result ≡ specs.is_map name.now }
{
    "map" == name
}

/// Whether the expression is the name `variables`.
#[tactic(auto, unfolding(crate::specs::Macros::is_variables))]
pub(crate) fn is_variables(e: &Expr) -> bool
    ensures { result ≡ specs.is_variables (view e.now) }
{
    match e {
        Expr::Name(name) => VARIABLES == name.as_str(),
        _ => false,
    }
}

/// Whether the name is that of a root.
#[tactic(auto, unfolding(crate::specs::Environment::is_root))]
fn is_root(name: &str) -> bool
    ensures { result ≡ environment.is_root name.now }
{
    name == "object"
        || name == "oldObject"
        || name == "params"
        || name == "namespaceObject"
        || name == "request"
}

/// Whether the name must not be an iteration name.
pub(crate) fn is_taken(name: &str) -> bool
    ensures { result ≡ is_taken name.now }
{
    is_root(name) || VARIABLES == name
}
