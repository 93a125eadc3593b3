//! What is known of the names of an expression.

ghost use Rattle.std.specs.Prelude.{◌≡◌, is_some, map};
ghost use Rattle.cel_macros.specs.Environment.{lookup};
ghost use Rattle.wide_reach.specs.Known as specs;
ghost use Rattle.wide_reach.specs.Scope.{known_view, names_in};

/// The name before the dot of a variable.
pub(crate) const VARIABLES: &str = "variables";

/// A variable, and whether its expression has a reach.
#[derive(Debug, Drop)]
pub struct KnownVariable {
    pub name: String,
    pub has_reach: bool,
}

/// The names that an expression may use.
#[derive(Drop)]
pub enum Scope<'a> {
    /// Outside all macros: the variables. If two have the same name, the first one is used.
    Outside(&'a [KnownVariable]),
    /// Inside a macro: an iteration name, whether it has a reach, and the names around it.
    Within(&'a str, bool, &'a Scope<'a>),
}

/// Whether a name has a reach. A root has one.
pub(crate) fn is_known(name: &str, scope: &Scope) -> bool
    ensures { result ≡ specs.known (lookup name.now (names_in scope.now).names) }
{
    match scope {
        Scope::Outside(_) => true,
        Scope::Within(first, has_reach, outer) => {
            if *first == name {
                return *has_reach;
            }
            is_known(name, outer)
        }
    }
}

/// Whether an iteration name of this spelling is in scope.
fn is_bound(name: &str, scope: &Scope) -> bool
    ensures { result ≡ is_some (lookup name.now (names_in scope.now).names) }
{
    match scope {
        Scope::Outside(_) => false,
        Scope::Within(first, _, outer) => *first == name || is_bound(name, outer),
    }
}

/// Whether an iteration name hides `variables`.
pub(crate) fn hides_variables(scope: &Scope) -> bool
    ensures { result ≡ specs.is_hidden (names_in scope.now) }
{
    is_bound(VARIABLES, scope)
}

/// Whether the first variable of this name has a reach.
fn first_known(name: &str, variables: &[KnownVariable]) -> bool
    ensures { result ≡ specs.known (lookup name.now (map known_view variables.now)) }
{
    for variable in variables {
        if variable.name.as_str() == name {
            return variable.has_reach;
        }
    }
    true
}

/// Whether a variable in scope has a reach.
pub(crate) fn is_variable_known(name: &str, scope: &Scope) -> bool
    ensures { result ≡ specs.known (lookup name.now (names_in scope.now).variables) }
{
    match scope {
        Scope::Outside(variables) => first_known(name, variables),
        Scope::Within(_, _, outer) => is_variable_known(name, outer),
    }
}
