//! The types of names.

ghost use Rattle.std.specs.Prelude.{◌≡◌, bytes_eq, map};
ghost use Rattle.std.specs.List.{list_any};
ghost use Rattle.cel_macros.specs.Environment as environment;
ghost use Rattle.cel_macros.specs.Environment.{lookup};
ghost use Rattle.cel_types.specs.Declarations.{declaration, types_of};
ghost use Rattle.cel_types.specs.Iterations.{names_of};
ghost use Rattle.cel_types.specs.Scope as specs;
ghost use Rattle.cel_types.specs.Types.{typing_of};

use crate::cel_type::CelType;
use crate::iterations::Iterations;
use crate::type_error::TypeError;
use crate::variable::Variable;

/// Whether this is the name of a root.
#[tactic(auto, unfolding(cel_macros::specs::Environment::is_root))]
fn is_root(name: &str) -> bool
    ensures { result ≡ environment.is_root name.now }
{
    name == "object"
        || name == "oldObject"
        || name == "params"
        || name == "namespaceObject"
        || name == "request"
}

/// Whether this is an iteration name in scope.
fn is_iteration(name: &str, names: &Iterations) -> bool
    ensures { result ≡ list_any (bytes_eq name.now) (names_of names.now) }
{
    match names {
        Iterations::Outside => false,
        Iterations::Within(own, outer) => name == *own || is_iteration(name, outer),
    }
}

/// Whether this is the name of a root or an item.
fn is_known(name: &str, names: &Iterations) -> bool
    ensures { result ≡ specs.is_known name.now (names_of names.now) }
{
    is_root(name) || is_iteration(name, names)
}

/// The type of a name.
#[tactic(auto, unfolding(crate::specs::Scope::name_type))]
pub(crate) fn name_type(name: &str, names: &Iterations) -> Result<CelType, TypeError>
    ensures { typing_of result ≡ specs.name_type name.now (names_of names.now) }
{
    if "variables" == name {
        return Err(TypeError::MisusedVariables);
    }
    if is_known(name, names) {
        return Ok(CelType::Dyn);
    }
    Err(TypeError::UnknownIdentifier)
}

/// The type of the first variable with this name.
fn type_named(name: &str, variables: &[Variable]) -> Option<CelType>
    ensures { result ≡ lookup name.now (types_of (map declaration variables.now)) }
{
    for variable in variables {
        if variable.name.as_str() == name {
            return Some(variable.cel_type);
        }
    }
    None
}

/// The type of a variable.
#[tactic(auto, unfolding(crate::specs::Scope::variable_type))]
pub(crate) fn variable_type(name: &str, variables: &[Variable]) -> Result<CelType, TypeError>
    ensures { typing_of result ≡ specs.variable_type name.now (types_of (map declaration variables.now)) }
{
    match type_named(name, variables) {
        Some(found) => Ok(found),
        None => Err(TypeError::MisusedVariables),
    }
}
