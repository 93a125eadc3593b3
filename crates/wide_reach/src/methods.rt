//! Functions and methods, by whether their operands have a reach.

ghost use Rattle.std.specs.Prelude.{◌≡◌};
ghost use Rattle.wide_reach.specs.Known as specs;

use wide_meaning::{Function, Method, Qualified};

/// A function of one operand.
pub(crate) fn called(found: Option<Function>, operand: bool) -> bool
    ensures { result ≡ specs.called found operand }
{
    match found {
        Some(Function::String) | Some(Function::Dyn) => operand,
        Some(Function::Bool) => true,
        _ => false,
    }
}

/// A method without arguments.
fn method_alone(method: Method, operand: bool) -> bool
    ensures { result ≡ specs.method_alone method operand }
{
    match method {
        Method::HasValue | Method::IsSorted => true,
        Method::Value | Method::First | Method::Last | Method::Min => operand,
        Method::Max | Method::Distinct | Method::Reverse => operand,
        _ => false,
    }
}

/// A method with one argument.
fn method_with_one(method: Method, operand: bool, argument: bool) -> bool
    ensures { result ≡ specs.method_with_one method operand argument }
{
    match method {
        Method::StartsWith | Method::EndsWith | Method::Contains => true,
        Method::OrValue | Method::Or => operand && argument,
        _ => false,
    }
}

/// A function with a namespace with one argument.
fn qualified_with_one(found: Qualified, argument: bool) -> bool
    ensures { result ≡ specs.qualified_with_one found argument }
{
    match found {
        Qualified::OptionalOf | Qualified::OptionalOfNonZeroValue => argument,
        _ => false,
    }
}

/// A function with a namespace, or a method of an operand, without arguments.
pub(crate) fn called_alone(found: Option<Qualified>, method: Option<Method>, operand: bool) -> bool
    ensures { result ≡ specs.called_alone found method operand }
{
    match found {
        Some(found) => matches!(found, Qualified::OptionalNone),
        None => match method {
            Some(method) => method_alone(method, operand),
            None => false,
        },
    }
}

/// A function with a namespace, or a method of an operand, with one argument.
pub(crate) fn called_with_one(
    found: Option<Qualified>,
    method: Option<Method>,
    operand: bool,
    argument: bool,
) -> bool
    ensures { result ≡ specs.called_with_one found method operand argument }
{
    match found {
        Some(found) => qualified_with_one(found, argument),
        None => match method {
            Some(method) => method_with_one(method, operand, argument),
            None => false,
        },
    }
}

/// A function with a namespace, or a method of an operand, with two arguments.
pub(crate) fn called_with_two(
    found: Option<Qualified>,
    method: Option<Method>,
    operand: bool,
) -> bool
    ensures { result ≡ specs.called_with_two found method operand }
{
    match found {
        Some(found) => matches!(
            found,
            Qualified::SetsContains | Qualified::SetsIntersects | Qualified::SetsEquivalent
        ),
        None => matches!(method, Some(Method::Slice)) && operand,
    }
}
