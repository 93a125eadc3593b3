//! Operators, macros and names, by what is known of their parts.

ghost use Rattle.std.specs.Prelude.{◌≡◌};
ghost use Rattle.wide_reader.specs.Tree as wide;
ghost use Rattle.wide_meaning.specs.Environment as environment;
ghost use Rattle.wide_meaning.specs.Functions.{qualified_named};
ghost use Rattle.wide_meaning.specs.Meaning.{namespace_in};
ghost use Rattle.wide_reach.specs.Known as specs;

use crate::scope::VARIABLES;
use cel_reader::{BinaryOperator, UnaryOperator};
use wide_meaning::Qualified;
use wide_reader::{Macro, PairMacro, Wide};

/// Whether an operator's result has a reach.
pub(crate) fn unary_known(operator: UnaryOperator) -> bool
    ensures { result ≡ specs.unary_known operator }
{
    matches!(operator, UnaryOperator::Not)
}

/// Whether an operator's result has a reach, by whether its operands have one.
pub(crate) fn binary_known(operator: BinaryOperator, left: bool, right: bool) -> bool
    ensures { result ≡ specs.binary_known operator left right }
{
    match operator {
        BinaryOperator::Add => left && right,
        BinaryOperator::Subtract | BinaryOperator::Multiply => false,
        BinaryOperator::Divide | BinaryOperator::Remainder => false,
        _ => true,
    }
}

/// Whether a macro's result has a reach, by whether its range and its part have one.
pub(crate) fn fold_known(found: Macro, range: bool, part: bool) -> bool
    ensures { result ≡ specs.fold_known found range part }
{
    match found {
        Macro::Filter => range,
        Macro::Map => part,
        _ => true,
    }
}

/// Whether the result of a macro with two names has a reach.
pub(crate) fn pair_fold_known(found: PairMacro, part: bool) -> bool
    ensures { result ≡ specs.pair_fold_known found part }
{
    match found {
        PairMacro::TransformList => part,
        _ => true,
    }
}

/// Whether an expression is the name `variables`, which no iteration name hides.
pub(crate) fn denotes_variables(e: &Wide, hidden: bool) -> bool
    ensures { result ≡ environment.denotes_variables (wide.view e.now) hidden }
{
    match e {
        Wide::Name(name) => VARIABLES == name.as_str() && !hidden,
        Wide::Root(name) => VARIABLES == name.as_str(),
        _ => false,
    }
}

/// The namespace that a name before a method can be; empty for what is no name.
fn namespace(of: &Wide) -> &str
    ensures { result.now ≡ namespace_in (wide.view of.now) }
{
    match of {
        Wide::Name(name) => name.as_str(),
        _ => "",
    }
}

/// The function with a namespace that a method of an operand is.
pub(crate) fn qualified(of: &Wide, name: &str) -> Option<Qualified>
    ensures { result ≡ qualified_named (namespace_in (wide.view of.now)) name.now }
{
    Qualified::of_names(namespace(of), name)
}
