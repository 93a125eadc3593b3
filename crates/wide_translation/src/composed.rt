//! Expressions from what their parts were translated to, or from the first error of these.

ghost use Rattle.cel_reader.specs.Tree as node;
ghost use Rattle.wide_kinds.specs.Kinds as kinds;
ghost use Rattle.wide_kinds.specs.declared.kind.ValueKind.TheVariants as kind;
ghost use Rattle.wide_reader.specs.Tree as wide;
ghost use Rattle.wide_translation.specs.Carried.{Translation, plain, taken};
ghost use Rattle.wide_translation.specs.Declarations.{ReturnsCarried, ReturnsEntryPart, carried_view};
ghost use Rattle.wide_translation.specs.Translated as specs;

use crate::carried::{Carried, value_of};
use crate::entry_part::EntryPart;
use crate::translation_error::TranslationError;
use crate::{entries, fields, indices, operators};
use cel_reader::{BinaryOperator, Expr, UnaryOperator};
use std::alloc::Global;
use wide_reader::{Access, Wide};

/// What a part was translated to, or why it was not.
pub(crate) type Part = Result<Carried, TranslationError>;

/// Whether an operand has a field.
#[tactic(auto, using(crate::proofs::PartReturns::taken_part, crate::proofs::PartReturns::refused_part))]
pub(crate) fn tested(alloc: Global, field: &str, of: Part) -> Part
    ensures { (t : Translation) → ReturnsCarried t of → ReturnsCarried (specs.with_carried t (λ c. taken (plain kind.Bool (specs.has_carried field.now c)))) result }
{
    match of {
        Ok(inner) => fields::tested(alloc, field, inner),
        Err(failed) => Err(failed),
    }
}

/// An index of an operand that is translated.
#[tactic(auto, using(crate::proofs::PartReturns::taken_part, crate::proofs::PartReturns::refused_part))]
fn index_of(alloc: Global, at: &Wide, access: Access, of: Carried, key: Part) -> Part
    ensures { (u : Translation) → ReturnsCarried u key → ReturnsCarried (specs.with_carried u (λ d. specs.index_carried (specs.text_literal (wide.view at.now)) (specs.count_literal (wide.view at.now)) access (carried_view of) d)) result }
{
    match key {
        Ok(found) => indices::index(alloc, at, access, of, found),
        Err(failed) => {
            drop(of);
            Err(failed)
        }
    }
}

/// An index of an operand.
#[tactic(auto, using(crate::proofs::PartReturns::refused_part))]
pub(crate) fn index(alloc: Global, at: &Wide, access: Access, of: Part, key: Part) -> Part
    ensures { (t u : Translation) → ReturnsCarried t of → ReturnsCarried u key → ReturnsCarried (specs.with_carried t (λ c. specs.with_carried u (λ d. specs.index_carried (specs.text_literal (wide.view at.now)) (specs.count_literal (wide.view at.now)) access c d))) result }
{
    match of {
        Ok(inner) => index_of(alloc, at, access, inner, key),
        Err(failed) => {
            drop(key);
            Err(failed)
        }
    }
}

/// A unary operator.
#[tactic(auto, using(crate::proofs::PartReturns::taken_part, crate::proofs::PartReturns::refused_part))]
pub(crate) fn unary(alloc: Global, operator: UnaryOperator, operand: Part) -> Part
    ensures { (t : Translation) → ReturnsCarried t operand → ReturnsCarried (specs.with_plain t (λ k a. taken (plain (kinds.unary_kind operator) (node.unary operator a)))) result }
{
    match operand {
        Ok(of) => operators::unary(alloc, operator, of),
        Err(failed) => Err(failed),
    }
}

/// A binary operator whose left operand is translated.
#[tactic(auto, using(crate::proofs::PartReturns::taken_part, crate::proofs::PartReturns::refused_part))]
fn binary_of(
    alloc: Global,
    is_empty: bool,
    operator: BinaryOperator,
    left: Carried,
    right: Part,
) -> Part
    ensures { (u : Translation) → ReturnsCarried u right → ReturnsCarried (specs.with_carried u (λ d. specs.binary_carried is_empty operator (carried_view left) d)) result }
{
    match right {
        Ok(second) => operators::binary(alloc, is_empty, operator, left, second),
        Err(failed) => {
            drop(left);
            Err(failed)
        }
    }
}

/// A binary operator. Whether its right operand is written `[]` is the first argument.
#[tactic(auto, using(crate::proofs::PartReturns::refused_part))]
pub(crate) fn binary(
    alloc: Global,
    is_empty: bool,
    operator: BinaryOperator,
    left: Part,
    right: Part,
) -> Part
    ensures { (t u : Translation) → ReturnsCarried t left → ReturnsCarried u right → ReturnsCarried (specs.with_carried t (λ c. specs.with_carried u (λ d. specs.binary_carried is_empty operator c d))) result }
{
    match left {
        Ok(first) => binary_of(alloc, is_empty, operator, first, right),
        Err(failed) => {
            drop(right);
            Err(failed)
        }
    }
}

/// A conditional whose first branch is translated.
#[tactic(auto, using(crate::proofs::PartReturns::taken_part, crate::proofs::PartReturns::refused_part))]
fn branch(alloc: Global, test: Expr, yes: Carried, no: Part) -> Part
    ensures { (v : Translation) → ReturnsCarried v no → ReturnsCarried (specs.with_carried v (λ e. specs.ternary_carried (node.view test) (carried_view yes) e)) result }
{
    match no {
        Ok(second) => operators::ternary(alloc, test, yes, second),
        Err(failed) => {
            drop(test);
            drop(yes);
            Err(failed)
        }
    }
}

/// A conditional whose condition is built.
#[tactic(auto, using(crate::proofs::PartReturns::refused_part))]
fn branches(alloc: Global, test: Expr, yes: Part, no: Part) -> Part
    ensures { (u v : Translation) → ReturnsCarried u yes → ReturnsCarried v no → ReturnsCarried (specs.with_carried u (λ d. specs.with_carried v (λ e. specs.ternary_carried (node.view test) d e))) result }
{
    match yes {
        Ok(first) => branch(alloc, test, first, no),
        Err(failed) => {
            drop(test);
            drop(no);
            Err(failed)
        }
    }
}

/// A conditional whose condition is translated.
fn ternary_of(alloc: Global, condition: Carried, yes: Part, no: Part) -> Part
    ensures { (u v : Translation) → ReturnsCarried u yes → ReturnsCarried v no → ReturnsCarried (specs.on_plain (carried_view condition) (λ k a. specs.with_carried u (λ d. specs.with_carried v (λ e. specs.ternary_carried a d e)))) result }
{
    let Some((_, test)) = value_of(condition) else {
        drop(yes);
        drop(no);
        return Err(TranslationError::OptionalValue);
    };
    branches(alloc, test, yes, no)
}

/// A conditional.
#[tactic(auto, using(crate::proofs::PartReturns::refused_part))]
pub(crate) fn ternary(alloc: Global, condition: Part, yes: Part, no: Part) -> Part
    ensures { (t u v : Translation) → ReturnsCarried t condition → ReturnsCarried u yes → ReturnsCarried v no → ReturnsCarried (specs.with_plain t (λ k a. specs.with_carried u (λ d. specs.with_carried v (λ e. specs.ternary_carried a d e)))) result }
{
    match condition {
        Ok(test) => ternary_of(alloc, test, yes, no),
        Err(failed) => {
            drop(yes);
            drop(no);
            Err(failed)
        }
    }
}

/// An entry of a map literal whose key is built.
#[tactic(auto, using(crate::proofs::PartReturns::entry_value, crate::proofs::PartReturns::no_entry_value))]
fn entry_with(
    alloc: Global,
    access: Access,
    key: Expr,
    value: Part,
) -> Result<EntryPart, TranslationError>
    ensures { (u : Translation) → ReturnsCarried u value → ReturnsEntryPart (specs.entry_more access (taken (plain kind.Dyn (node.view key))) u) result }
{
    match value {
        Ok(item) => entries::part(alloc, access, key, item),
        Err(failed) => {
            drop(key);
            Err(failed)
        }
    }
}

/// An entry of a map literal whose key is translated.
#[tactic(auto, using(crate::proofs::PartReturns::no_entry_plain))]
fn entry_of(
    alloc: Global,
    access: Access,
    key: Carried,
    value: Part,
) -> Result<EntryPart, TranslationError>
    ensures { (u : Translation) → ReturnsCarried u value → ReturnsEntryPart (specs.entry_more access (taken (carried_view key)) u) result }
{
    let Some((_, tree)) = value_of(key) else {
        drop(value);
        return Err(TranslationError::OptionalValue);
    };
    entry_with(alloc, access, tree, value)
}

/// An entry of a map literal.
#[tactic(auto, using(crate::proofs::PartReturns::no_entry_key))]
pub(crate) fn entry(
    alloc: Global,
    access: Access,
    key: Part,
    value: Part,
) -> Result<EntryPart, TranslationError>
    ensures { (t u : Translation) → ReturnsCarried t key → ReturnsCarried u value → ReturnsEntryPart (specs.entry_more access t u) result }
{
    match key {
        Ok(found) => entry_of(alloc, access, found, value),
        Err(failed) => {
            drop(value);
            Err(failed)
        }
    }
}
