//! Calls of functions and methods, by whether their operands are narrow.

ghost use Rattle.std.specs.Prelude.{◌≡◌, None, [], ◌∷◌};
ghost use Rattle.wide_widths.specs.Narrow as widths;
ghost use Rattle.wide_indices.specs.Known.{of_two};

use wide_meaning::{Function, Method, Qualified};

/// A function of one operand.
pub(crate) fn called(found: Option<Function>, operand: bool) -> bool
    ensures { result ≡ widths.called found (operand ∷ []) }
{
    match found {
        Some(Function::Dyn) => operand,
        Some(_) => true,
        None => false,
    }
}

/// A function with a namespace, or a method of an operand, without arguments.
pub(crate) fn without_arguments(
    found: Option<Qualified>,
    method: Option<Method>,
    operand: bool,
) -> bool
    ensures { result ≡ widths.on_operand found method operand [] }
{
    match found {
        Some(found) => matches!(found, Qualified::OptionalNone),
        None => alone(method, operand),
    }
}

/// A method without arguments.
fn alone(method: Option<Method>, operand: bool) -> bool
    ensures { result ≡ widths.on_operand None method operand [] }
{
    match method {
        Some(Method::Size) | Some(Method::HasValue) | Some(Method::IsSorted) => true,
        Some(Method::Distinct) | Some(Method::Reverse) => operand,
        Some(Method::Value)
        | Some(Method::First)
        | Some(Method::Last)
        | Some(Method::Min)
        | Some(Method::Max) => operand,
        _ => false,
    }
}

/// A function with a namespace, or a method of an operand, of one argument.
pub(crate) fn with_argument(
    found: Option<Qualified>,
    method: Option<Method>,
    operand: bool,
    argument: bool,
) -> bool
    ensures { result ≡ widths.on_operand found method operand (argument ∷ []) }
{
    match found {
        Some(found) => {
            let is_optional = matches!(
                found,
                Qualified::OptionalOf | Qualified::OptionalOfNonZeroValue
            );
            is_optional && argument
        }
        None => beside(method, operand, argument),
    }
}

/// A method of one argument.
fn beside(method: Option<Method>, operand: bool, argument: bool) -> bool
    ensures { result ≡ widths.on_operand None method operand (argument ∷ []) }
{
    match method {
        Some(Method::StartsWith) | Some(Method::EndsWith) | Some(Method::Contains) => true,
        Some(Method::OrValue) | Some(Method::Or) => operand && argument,
        _ => false,
    }
}

/// A function with a namespace, or a method of an operand, of two arguments.
pub(crate) fn with_two(found: Option<Qualified>, method: Option<Method>, operand: bool) -> bool
    ensures { result ≡ of_two found method operand }
{
    match found {
        Some(found) => matches!(
            found,
            Qualified::SetsContains | Qualified::SetsIntersects | Qualified::SetsEquivalent
        ),
        None => matches!(method, Some(Method::Slice)) && operand,
    }
}
