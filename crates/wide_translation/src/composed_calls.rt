//! Calls from what their operands were translated to, or from the first error of these.

ghost use Rattle.std.specs.Prelude.{[], ◌∷◌};
ghost use Rattle.wide_kinds.specs.declared.kind.ValueKind.TheVariants as kind;
ghost use Rattle.wide_translation.specs.Carried.{Translation, listed, plain, taken};
ghost use Rattle.wide_translation.specs.Declarations.{ReturnsCarried, carried_view};
ghost use Rattle.wide_translation.specs.Forms as forms;
ghost use Rattle.wide_translation.specs.Layers.{sets_test};
ghost use Rattle.wide_translation.specs.Lists as lists;
ghost use Rattle.wide_translation.specs.Translated as specs;

use crate::carried::{Carried, value_of};
use crate::composed::Part;
use crate::translation_error::TranslationError;
use crate::{calls, list_functions};
use cel_macros::TextTest;
use std::alloc::Global;
use wide_meaning::{Function, Method, Qualified};

/// A function of an operand.
#[tactic(auto, using(crate::proofs::PartReturns::taken_part, crate::proofs::PartReturns::refused_part))]
pub(crate) fn call(alloc: Global, found: Function, argument: Part) -> Part
    ensures { (t : Translation) → ReturnsCarried t argument → ReturnsCarried (specs.with_plain t (specs.function_carried found)) result }
{
    match argument {
        Ok(of) => calls::function(alloc, found, of),
        Err(failed) => Err(failed),
    }
}

/// `optional.of` of an operand.
#[tactic(auto, using(crate::proofs::PartReturns::taken_part, crate::proofs::PartReturns::refused_part))]
fn optional_of(alloc: Global, argument: Part) -> Part
    ensures { (t : Translation) → ReturnsCarried t argument → ReturnsCarried (specs.with_plain t (λ k a. taken (listed k (forms.one_tree a)))) result }
{
    match argument {
        Ok(of) => calls::optional_of(alloc, of),
        Err(failed) => Err(failed),
    }
}

/// `optional.ofNonZeroValue` of an operand.
#[tactic(auto, using(crate::proofs::PartReturns::taken_part, crate::proofs::PartReturns::refused_part))]
fn optional_of_non_zero(alloc: Global, argument: Part) -> Part
    ensures { (t : Translation) → ReturnsCarried t argument → ReturnsCarried (specs.with_plain t (λ k a. taken (listed k (specs.once a forms.non_zero_tree)))) result }
{
    match argument {
        Ok(of) => calls::optional_of_non_zero(alloc, of),
        Err(failed) => Err(failed),
    }
}

/// A function with a namespace of one argument.
pub(crate) fn qualified(alloc: Global, found: Qualified, name: &str, argument: Part) -> Part
    ensures { (t : Translation) → ReturnsCarried t argument → ReturnsCarried (specs.qualified_translation found name.now (t ∷ [])) result }
{
    match found {
        Qualified::OptionalOf => optional_of(alloc, argument),
        Qualified::OptionalOfNonZeroValue => optional_of_non_zero(alloc, argument),
        _ => {
            drop(argument);
            Err(calls::unknown(alloc, name))
        }
    }
}

/// A test of two sets whose first one is translated.
#[tactic(auto, using(crate::proofs::PartReturns::plain_part, crate::proofs::PartReturns::taken_part, crate::proofs::PartReturns::refused_part, crate::proofs::PartReturns::refused_plain))]
fn sets_of(alloc: Global, found: Qualified, first: Carried, second: Part) -> Part
    ensures { (u : Translation) → ReturnsCarried u second → ReturnsCarried (specs.on_plain (carried_view first) (λ k a. specs.with_plain u (λ j b. taken (plain kind.Bool (lists.sets_tree (sets_test found) a b))))) result }
{
    let Some((_, list)) = value_of(first) else {
        drop(second);
        return Err(TranslationError::OptionalValue);
    };
    match second {
        Ok(other) => list_functions::sets(alloc, found, list, other),
        Err(failed) => {
            drop(list);
            Err(failed)
        }
    }
}

/// A test of two sets.
#[tactic(auto, using(crate::proofs::PartReturns::refused_part))]
pub(crate) fn sets(alloc: Global, found: Qualified, first: Part, second: Part) -> Part
    ensures { (t u : Translation) → ReturnsCarried t first → ReturnsCarried u second → ReturnsCarried (lists.sets_translation (sets_test found) t u) result }
{
    match first {
        Ok(list) => sets_of(alloc, found, list, second),
        Err(failed) => {
            drop(second);
            Err(failed)
        }
    }
}

/// A test of a text.
#[tactic(auto, using(crate::proofs::PartReturns::plain_part, crate::proofs::PartReturns::taken_part, crate::proofs::PartReturns::refused_part, crate::proofs::PartReturns::refused_plain))]
fn text_test(alloc: Global, test: TextTest, of: Carried, argument: Part) -> Part
    ensures { (u : Translation) → ReturnsCarried u argument → ReturnsCarried (specs.test_translation test (carried_view of) u) result }
{
    let Some((_, text)) = value_of(of) else {
        drop(argument);
        return Err(TranslationError::OptionalValue);
    };
    match argument {
        Ok(other) => calls::tested(alloc, test, text, other),
        Err(failed) => {
            drop(text);
            Err(failed)
        }
    }
}

/// The value of an optional value, or an operand.
#[tactic(auto, using(crate::proofs::PartReturns::taken_part, crate::proofs::PartReturns::refused_part))]
fn or_value(alloc: Global, of: Carried, argument: Part) -> Part
    ensures { (u : Translation) → ReturnsCarried u argument → ReturnsCarried (specs.with_plain u (specs.or_value_carried (carried_view of))) result }
{
    match argument {
        Ok(other) => calls::or_value(alloc, of, other),
        Err(failed) => {
            drop(of);
            Err(failed)
        }
    }
}

/// An optional value, or another.
#[tactic(auto, using(crate::proofs::PartReturns::taken_part, crate::proofs::PartReturns::refused_part))]
fn or(alloc: Global, of: Carried, argument: Part) -> Part
    ensures { (u : Translation) → ReturnsCarried u argument → ReturnsCarried (specs.with_carried u (specs.or_carried (carried_view of))) result }
{
    match argument {
        Ok(other) => calls::or(alloc, of, other),
        Err(failed) => {
            drop(of);
            Err(failed)
        }
    }
}

/// A method of one argument.
pub(crate) fn method(alloc: Global, found: Method, of: Carried, argument: Part) -> Part
    ensures { (u : Translation) → ReturnsCarried u argument → ReturnsCarried (specs.method_carried found (carried_view of) (u ∷ [])) result }
{
    match found {
        Method::StartsWith => text_test(alloc, TextTest::StartsWith, of, argument),
        Method::EndsWith => text_test(alloc, TextTest::EndsWith, of, argument),
        Method::Contains => text_test(alloc, TextTest::Contains, of, argument),
        Method::OrValue => or_value(alloc, of, argument),
        Method::Or => or(alloc, of, argument),
        _ => {
            drop(of);
            drop(argument);
            Err(calls::unknown_method(alloc, found))
        }
    }
}
