//! Expressions that are recognised by their form.

ghost use Rattle.std.specs.Prelude.{◌≡◌};
ghost use Rattle.wide_reader.specs.Tree as wide;
ghost use Rattle.wide_meaning.specs.Environment as environment;
ghost use Rattle.wide_meaning.specs.Functions.{qualified_named};
ghost use Rattle.wide_meaning.specs.Meaning.{namespace_in};
ghost use Rattle.wide_widths.specs.Narrow as widths;
ghost use Rattle.wide_indices.specs.Known as specs;

use crate::names::VARIABLES;
use cel_reader::BinaryOperator;
use wide_meaning::Qualified;
use wide_reader::{Macro, PairMacro, Wide};

/// Whether an operator's result is a sum.
pub(crate) fn is_sum(operator: BinaryOperator) -> bool
    ensures { result ≡ widths.is_sum operator }
{
    matches!(operator, BinaryOperator::Add)
}

/// Whether an expression is no list because of a literal in it.
#[tactic(auto, unfolding(wide_widths::specs::Narrow::is_scalar))]
pub(crate) fn is_scalar(e: &Wide) -> bool
    ensures { result ≡ widths.is_scalar (wide.view e.now) }
{
    match e {
        Wide::Literal(_) | Wide::Uint(_) => true,
        Wide::Binary(operator, left, right) => {
            is_sum(*operator) && (is_scalar(left) || is_scalar(right))
        }
        _ => false,
    }
}

/// Whether a macro's result is narrow, by whether its range and its part are.
pub(crate) fn fold_is_narrow(found: Macro, range: bool, part: bool) -> bool
    ensures { result ≡ specs.fold_is_narrow found range part }
{
    match found {
        Macro::Filter => range,
        Macro::Map => range && part,
        _ => true,
    }
}

/// Whether the result of a macro with two names is narrow.
pub(crate) fn pair_fold_is_narrow(found: PairMacro, range: bool, part: bool) -> bool
    ensures { result ≡ specs.pair_fold_is_narrow found range part }
{
    match found {
        PairMacro::TransformList => range && part,
        _ => true,
    }
}

/// Whether an expression is the name `variables`, which no iteration name hides.
pub(crate) fn denotes_variables(e: &Wide, hidden: bool) -> bool
    ensures { result ≡ environment.denotes_variables (wide.view e.now) hidden }
{
    match e {
        Wide::Name(name) => VARIABLES == name.as_str() && !hidden,
        Wide::Root(name) => VARIABLES == name.as_str(),
        _ => false,
    }
}

/// The namespace that a name before a method can be; empty for what is no name.
fn namespace(of: &Wide) -> &str
    ensures { result.now ≡ namespace_in (wide.view of.now) }
{
    match of {
        Wide::Name(name) => name.as_str(),
        _ => "",
    }
}

/// The function with a namespace that a method of an operand is.
pub(crate) fn qualified(of: &Wide, name: &str) -> Option<Qualified>
    ensures { result ≡ qualified_named (namespace_in (wide.view of.now)) name.now }
{
    Qualified::of_names(namespace(of), name)
}
