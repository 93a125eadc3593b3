//! Builds expanded expressions from their parts.

ghost use Rattle.std.specs.Prelude.{◌≡◌, IfOk, IsOkAnd, string_bytes};
ghost use Rattle.std.specs.Prelude as list;
ghost use Rattle.cel_reader.specs.Tree.{literal_view};
ghost use Rattle.cel_macros.specs.Callee.{callee_named};
ghost use Rattle.cel_macros.specs.CoreTree as node;
ghost use Rattle.cel_macros.specs.CoreView.{core_view, cores, core_entries};
ghost use Rattle.cel_macros.specs.Expanding.{core_pair};

use crate::callee::Callee;
use crate::core_tree::Core;
use crate::macros::Macro;
use crate::together::both;
use cel_reader::{BinaryOperator, Literal};
use std::alloc::{AllocError, Global};

/// An expression in a box, if its parts were made.
pub(crate) type BoxedCore = Result<Box<Core>, AllocError>;

/// The expression in a box.
pub(crate) fn boxed(alloc: Global, core: Core) -> BoxedCore
    ensures { IfOk result (λ b. b.value ≡ core) }
{
    Ok(Box::new(alloc, core)?)
}

/// A literal.
pub(crate) fn literal(alloc: Global, literal: &Literal) -> Result<Core, AllocError>
    ensures { IfOk result (λ c. core_view c ≡ node.literal (literal_view literal.now)) }
{
    match literal {
        Literal::Int(n) => Ok(Core::Literal(Literal::Int(*n))),
        Literal::Text(text) => {
            let copy = String::from_str(alloc, text.as_str())?;
            Ok(Core::Literal(Literal::Text(copy)))
        }
        Literal::Bool(b) => Ok(Core::Literal(Literal::Bool(*b))),
        Literal::Null => Ok(Core::Literal(Literal::Null)),
    }
}

/// A name.
pub(crate) fn name(alloc: Global, name: &str) -> Result<Core, AllocError>
    ensures { IfOk result (λ c. core_view c ≡ node.name name.now) }
{
    Ok(Core::Name(String::from_str(alloc, name)?))
}

/// A variable.
pub(crate) fn variable(alloc: Global, name: &str) -> Result<Core, AllocError>
    ensures { IfOk result (λ c. core_view c ≡ node.variable name.now) }
{
    Ok(Core::Variable(String::from_str(alloc, name)?))
}

/// A field of an expression.
pub(crate) fn select(alloc: Global, of: BoxedCore, field: &str) -> Result<Core, AllocError>
    ensures { IfOk result (λ c. IsOkAnd of (λ b. core_view c ≡ node.select (core_view b.value) field.now)) }
{
    let (of, name) = both(of, String::from_str(alloc, field))?;
    Ok(Core::Select(of, name))
}

/// An item of a list, or an entry of a map.
pub(crate) fn index(of: BoxedCore, at: BoxedCore) -> Result<Core, AllocError>
    ensures { IfOk result (λ c. IsOkAnd of (λ a. IsOkAnd at (λ b. core_view c ≡ node.index (core_view a.value) (core_view b.value)))) }
{
    let (of, at) = both(of, at)?;
    Ok(Core::Index(of, at))
}

/// An operator with two operands.
pub(crate) fn binary(
    operator: BinaryOperator,
    left: BoxedCore,
    right: BoxedCore,
) -> Result<Core, AllocError>
    ensures { IfOk result (λ c. IsOkAnd left (λ a. IsOkAnd right (λ b. core_view c ≡ node.binary operator (core_view a.value) (core_view b.value)))) }
{
    let (left, right) = both(left, right)?;
    Ok(Core::Binary(operator, left, right))
}

/// A conditional expression.
pub(crate) fn ternary(
    condition: BoxedCore,
    yes: BoxedCore,
    no: BoxedCore,
) -> Result<Core, AllocError>
    ensures { IfOk result (λ c. IsOkAnd condition (λ a. IsOkAnd yes (λ b. IsOkAnd no (λ d.
        core_view c ≡ node.ternary (core_view a.value) (core_view b.value) (core_view d.value))))) }
{
    let (condition, (yes, no)) = both(condition, both(yes, no))?;
    Ok(Core::Ternary(condition, yes, no))
}

/// Whether an expression has a field.
pub(crate) fn has(alloc: Global, of: Core, field: String) -> Result<Core, AllocError>
    ensures { IfOk result (λ c. core_view c ≡ node.has (core_view of) (string_bytes field)) }
{
    Ok(Core::Has(Box::new(alloc, of)?, field))
}

/// A call of a function.
pub(crate) fn call(alloc: Global, name: &str, arguments: Vec<Core>) -> Result<Core, AllocError>
    ensures { IfOk result (λ c. core_view c ≡ node.call (callee_named name.now) (cores (list.map core_view arguments.items))) }
{
    match Callee::of_name(alloc, name) {
        Ok(callee) => Ok(Core::Call(callee, arguments)),
        Err(error) => {
            drop(arguments);
            Err(error)
        }
    }
}

/// A list literal.
pub(crate) fn list(items: Vec<Core>) -> Core
    ensures { core_view result ≡ node.list (cores (list.map core_view items.items)) }
{
    Core::List(items)
}

/// A map literal.
pub(crate) fn map(pairs: Vec<(Core, Core)>) -> Core
    ensures { core_view result ≡ node.map (core_entries (list.map core_pair pairs.items)) }
{
    Core::Map(pairs)
}

/// A call of a method.
pub(crate) fn method(
    alloc: Global,
    of: Box<Core>,
    name: &str,
    arguments: Vec<Core>,
) -> Result<Core, AllocError>
    ensures { IfOk result (λ c. core_view c ≡ node.method (core_view of.value) (callee_named name.now) (cores (list.map core_view arguments.items))) }
{
    match Callee::of_name(alloc, name) {
        Ok(callee) => Ok(Core::Method(of, callee, arguments)),
        Err(error) => {
            drop(of);
            drop(arguments);
            Err(error)
        }
    }
}

/// A macro over a range.
pub(crate) fn fold(
    alloc: Global,
    found: Macro,
    name: String,
    range: Box<Core>,
    part: Core,
) -> Result<Core, AllocError>
    ensures { IfOk result (λ c. core_view c ≡ node.fold found (string_bytes name) (core_view range.value) (core_view part)) }
{
    match boxed(alloc, part) {
        Ok(part) => Ok(Core::Fold(found, name, range, part)),
        Err(error) => {
            drop(name);
            drop(range);
            Err(error)
        }
    }
}

/// `map` with a predicate over a range.
pub(crate) fn fold_map(
    alloc: Global,
    name: String,
    range: Box<Core>,
    predicate: Core,
    transform: Core,
) -> Result<Core, AllocError>
    ensures { IfOk result (λ c. core_view c ≡ node.fold_map (string_bytes name) (core_view range.value) (core_view predicate) (core_view transform)) }
{
    match both(boxed(alloc, predicate), boxed(alloc, transform)) {
        Ok((predicate, transform)) => Ok(Core::FoldMap(name, range, predicate, transform)),
        Err(error) => {
            drop(name);
            drop(range);
            Err(error)
        }
    }
}
