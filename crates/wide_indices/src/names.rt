//! What is known of names in scope.

ghost use Rattle.std.specs.Prelude.{◌≡◌, is_some, map};
ghost use Rattle.cel_macros.specs.Environment.{lookup};
ghost use Rattle.wide_widths.specs.Narrow as specs;
ghost use Rattle.wide_indices.specs.Known.{known_view, names_in};

use crate::known_variables::KnownVariable;

/// The name before the dot of a variable.
pub(crate) const VARIABLES: &str = "variables";

/// The names in scope.
#[derive(Drop)]
pub(crate) enum Names<'a> {
    /// Outside all macros: the variables.
    Outside(&'a [KnownVariable]),
    /// Inside a macro: an iteration name, whether its value is narrow, and the names around it.
    Within(&'a str, bool, &'a Names<'a>),
}

/// Whether the value of a name is known to be narrow. A root's is.
pub(crate) fn is_known(name: &str, names: &Names) -> bool
    ensures { result ≡ specs.known (lookup name.now (names_in names.now).names) }
{
    match names {
        Names::Outside(_) => true,
        Names::Within(first, is_narrow, outer) => {
            if *first == name {
                return *is_narrow;
            }
            is_known(name, outer)
        }
    }
}

/// Whether an iteration name of this spelling is in scope.
fn is_bound(name: &str, names: &Names) -> bool
    ensures { result ≡ is_some (lookup name.now (names_in names.now).names) }
{
    match names {
        Names::Outside(_) => false,
        Names::Within(first, _, outer) => *first == name || is_bound(name, outer),
    }
}

/// Whether an iteration name hides `variables`.
pub(crate) fn hides_variables(names: &Names) -> bool
    ensures { result ≡ specs.is_hidden (names_in names.now) }
{
    is_bound(VARIABLES, names)
}

/// Whether the value of the first variable of this name is narrow.
fn first_known(name: &str, variables: &[KnownVariable]) -> bool
    ensures { result ≡ specs.known (lookup name.now (map known_view variables.now)) }
{
    for variable in variables {
        if variable.name.as_str() == name {
            return variable.is_narrow;
        }
    }
    true
}

/// Whether the value of a variable in scope is narrow.
pub(crate) fn is_variable_known(name: &str, names: &Names) -> bool
    ensures { result ≡ specs.known (lookup name.now (names_in names.now).variables) }
{
    match names {
        Names::Outside(variables) => first_known(name, variables),
        Names::Within(_, _, outer) => is_variable_known(name, outer),
    }
}
