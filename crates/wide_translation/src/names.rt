//! Names in scope, and what iteration names are written as.

ghost use Rattle.std.specs.Prelude.{◌≡◌, IfOk, is_some, length, map, string_bytes};
ghost use Rattle.cel_macros.specs.Environment as environment;
ghost use Rattle.cel_macros.specs.Environment.{lookup};
ghost use Rattle.cel_macros.specs.MacroFault.{is_taken as is_reserved_in};
ghost use Rattle.cel_reader.specs.Words as words;
ghost use Rattle.wide_translation.specs.Declarations.{declaration, scope_in};
ghost use Rattle.wide_translation.specs.Names as specs;
ghost use Rattle.wide_translation.specs.Scope.{is_hidden};

use crate::place::Place;
use crate::scope::Variable;
use cel_tokens::is_name;
use std::alloc::{AllocError, Global};
use wide_kinds::Kind;

/// The iteration name that the translation binds.
pub(crate) const HELD: &str = "celbpf_a";

/// The root of the namespace.
pub(crate) const NAMESPACE: &str = "namespaceObject";

/// The root of the parameters.
pub(crate) const PARAMS: &str = "params";

/// The iteration name of the indices or keys of a range.
pub(crate) const INDEX: &str = "celbpf_i";

/// A second iteration name that the translation binds.
pub(crate) const SECOND: &str = "celbpf_b";

/// A third one.
pub(crate) const THIRD: &str = "celbpf_c";

/// Its field that has the parameters, if the root also has tables.
pub(crate) const PARAMS_FIELD: &str = "v";

/// The name before the dot of a variable.
pub(crate) const VARIABLES: &str = "variables";

/// The names in scope.
#[derive(Drop)]
pub(crate) enum Names<'a> {
    /// Outside all macros: the variables, and whether the root `params` has tables beside the parameters.
    Outside(&'a [Variable], bool),
    /// Outside all macros of a match condition, which may use no variable.
    Condition(bool),
    /// Inside a macro: an iteration name, how it is written, and the names around it.
    Within(&'a str, Place, &'a Names<'a>),
}

/// Whether a name may follow a dot.
pub(crate) fn is_selector(name: &str) -> bool
    ensures { result ≡ words.is_selector name.now }
{
    is_name(name.as_bytes())
        && !(name == "true" || name == "false" || name == "null" || name == "in")
}

/// Whether a name is that of a root.
#[tactic(auto, unfolding(cel_macros::specs::Environment::is_root))]
pub(crate) fn is_root(name: &str) -> bool
    ensures { result ≡ environment.is_root name.now }
{
    name == "object"
        || name == "oldObject"
        || name == "params"
        || name == NAMESPACE
        || name == "request"
}

/// Whether an iteration name begins as the names that the translation binds.
pub(crate) fn is_taken(name: &str) -> bool
    ensures { result ≡ specs.is_taken name.now }
{
    name.starts_with("celbpf_")
}

/// Whether an iteration name is a root or `variables`, which the compiled expressions do not bind.
fn is_reserved(name: &str) -> bool
    ensures { result ≡ is_reserved_in name.now }
{
    is_root(name) || VARIABLES == name
}

/// The iteration name that an iteration name is written as.
pub(crate) fn written_name(alloc: Global, name: &str) -> Result<String, AllocError>
    ensures { IfOk result (λ n. string_bytes n ≡ specs.written_name name.now) }
{
    if is_reserved(name) {
        let mut written = String::from_str(alloc, "celbpf_")?;
        written.push_str(name)?;
        return Ok(written);
    }
    String::from_str(alloc, name)
}

/// Whether the root `params` has tables beside the parameters.
pub(crate) fn is_wrapped(names: &Names) -> bool
    ensures { result ≡ (scope_in names.now).wrapped }
{
    match names {
        Names::Outside(_, wrapped) | Names::Condition(wrapped) => *wrapped,
        Names::Within(_, _, outer) => is_wrapped(outer),
    }
}

/// Whether the expression is a match condition.
pub(crate) fn is_condition(names: &Names) -> bool
    ensures { result ≡ (scope_in names.now).condition }
{
    match names {
        Names::Outside(_, _) => false,
        Names::Condition(_) => true,
        Names::Within(_, _, outer) => is_condition(outer),
    }
}

/// Whether an iteration name of this spelling is in scope.
fn is_bound(name: &str, names: &Names) -> bool
    ensures { result ≡ is_some (lookup name.now (scope_in names.now).names) }
{
    match names {
        Names::Outside(_, _) | Names::Condition(_) => false,
        Names::Within(first, _, outer) => *first == name || is_bound(name, outer),
    }
}

/// The iteration name of a pair inside of these names.
#[tactic(auto, using(crate::proofs::PairNames::outermost))]
pub(crate) fn pair_name(alloc: Global, names: &Names) -> Result<String, AllocError>
    ensures { IfOk result (λ n. string_bytes n ≡ specs.pair_name (length (scope_in names.now).names)) }
{
    match names {
        Names::Outside(_, _) | Names::Condition(_) => String::from_str(alloc, "celbpf_p"),
        Names::Within(_, _, outer) => {
            let mut name = pair_name(alloc, outer)?;
            name.push_str("p")?;
            Ok(name)
        }
    }
}

/// Whether an iteration name hides `variables`.
pub(crate) fn hides_variables(names: &Names) -> bool
    ensures { result ≡ is_hidden (scope_in names.now) }
{
    is_bound(VARIABLES, names)
}

/// The kind of the first variable of this name.
fn kind_named(name: &str, variables: &[Variable]) -> Option<Kind>
    ensures { result ≡ lookup name.now (map declaration variables.now) }
{
    for variable in variables {
        if variable.name.as_str() == name {
            return Some(variable.kind);
        }
    }
    None
}

/// The kind of a variable in scope.
pub(crate) fn variable_kind(name: &str, names: &Names) -> Option<Kind>
    ensures { result ≡ lookup name.now (scope_in names.now).variables }
{
    match names {
        Names::Outside(variables, _) => kind_named(name, variables),
        Names::Condition(_) => None,
        Names::Within(_, _, outer) => variable_kind(name, outer),
    }
}
