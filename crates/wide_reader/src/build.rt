//! Builds expressions from their parts.

ghost use Rattle.std.specs.Prelude.{◌≡◌, IfOk, string_bytes};
ghost use Rattle.std.specs.Prelude as list;
ghost use Rattle.cel_reader.specs.Tree.{literal_view};
ghost use Rattle.wide_reader.specs.Tree as node;
ghost use Rattle.wide_reader.specs.Tree.{view, item_view, entry_view, wides};
ghost use Rattle.wide_reader.specs.Grammar.{applied};

use crate::wide::{Access, Macro, OptionalMacro, PairMacro, Wide};
use cel_reader::{BinaryOperator, Literal, UnaryOperator};
use std::alloc::{AllocError, Global};

/// Both in boxes.
fn boxed<T: Drop>(alloc: Global, first: T, second: T) -> Result<(Box<T>, Box<T>), AllocError>
    ensures { IfOk result (λ b. (b.0.value ≡ first) × (b.1.value ≡ second)) }
{
    let first = Box::new(alloc, first)?;
    Ok((first, Box::new(alloc, second)?))
}

/// All three in boxes.
fn all_boxed<T: Drop>(
    alloc: Global,
    first: T,
    second: T,
    third: T,
) -> Result<(Box<T>, Box<T>, Box<T>), AllocError>
    ensures { IfOk result (λ b. (b.0.value ≡ first) × (b.1.value ≡ second) × (b.2.value ≡ third)) }
{
    let (first, second) = boxed(alloc, first, second)?;
    Ok((first, second, Box::new(alloc, third)?))
}

/// A literal.
pub fn literal(literal: Literal) -> Wide
    ensures { view result ≡ node.literal (literal_view literal) }
{
    Wide::Literal(literal)
}

/// A name.
pub fn name(name: String) -> Wide
    ensures { view result ≡ node.name (string_bytes name) }
{
    Wide::Name(name)
}

/// A name with a dot before it.
pub fn root(name: String) -> Wide
    ensures { view result ≡ node.root (string_bytes name) }
{
    Wide::Root(name)
}

/// A list literal.
pub fn list(items: Vec<(Access, Wide)>) -> Wide
    ensures { view result ≡ node.list (node.items (list.map item_view items.items)) }
{
    Wide::List(items)
}

/// A map literal.
pub fn map(entries: Vec<(Access, Wide, Wide)>) -> Wide
    ensures { view result ≡ node.map (node.entries (list.map entry_view entries.items)) }
{
    Wide::Map(entries)
}

/// A field of an expression.
pub fn select(alloc: Global, of: Wide, access: Access, field: String) -> Result<Wide, AllocError>
    ensures { IfOk result (λ e. view e ≡ node.select (view of) access (string_bytes field)) }
{
    Ok(Wide::Select(Box::new(alloc, of)?, access, field))
}

/// An item or entry of an expression.
pub fn index(alloc: Global, of: Wide, access: Access, at: Wide) -> Result<Wide, AllocError>
    ensures { IfOk result (λ e. view e ≡ node.index (view of) access (view at)) }
{
    let (of, at) = boxed(alloc, of, at)?;
    Ok(Wide::Index(of, access, at))
}

/// An operand after operators, of which an even number leaves no node.
pub fn applied(
    alloc: Global,
    operator: UnaryOperator,
    odd: bool,
    operand: Wide,
) -> Result<Wide, AllocError>
    ensures { IfOk result (λ e. view e ≡ applied operator odd (view operand)) }
{
    if odd {
        Ok(Wide::Unary(operator, Box::new(alloc, operand)?))
    } else {
        Ok(operand)
    }
}

/// An operator between operands.
pub fn binary(
    alloc: Global,
    operator: BinaryOperator,
    left: Wide,
    right: Wide,
) -> Result<Wide, AllocError>
    ensures { IfOk result (λ e. view e ≡ node.binary operator (view left) (view right)) }
{
    let (left, right) = boxed(alloc, left, right)?;
    Ok(Wide::Binary(operator, left, right))
}

/// A conditional.
pub fn ternary(alloc: Global, condition: Wide, yes: Wide, no: Wide) -> Result<Wide, AllocError>
    ensures { IfOk result (λ e. view e ≡ node.ternary (view condition) (view yes) (view no)) }
{
    let (condition, yes, no) = all_boxed(alloc, condition, yes, no)?;
    Ok(Wide::Ternary(condition, yes, no))
}

/// A call of a function.
pub fn call(name: String, arguments: Vec<Wide>) -> Wide
    ensures { view result ≡ node.call (string_bytes name) (wides (list.map view arguments.items)) }
{
    Wide::Call(name, arguments)
}

/// A call of a method.
pub fn method(
    alloc: Global,
    of: Wide,
    name: String,
    arguments: Vec<Wide>,
) -> Result<Wide, AllocError>
    ensures { IfOk result (λ e. view e ≡ node.method (view of) (string_bytes name) (wides (list.map view arguments.items))) }
{
    Ok(Wide::Method(Box::new(alloc, of)?, name, arguments))
}

/// A macro with one name.
pub fn fold(
    alloc: Global,
    found: Macro,
    of: Wide,
    name: String,
    part: Wide,
) -> Result<Wide, AllocError>
    ensures { IfOk result (λ e. view e ≡ node.fold found (view of) (string_bytes name) (view part)) }
{
    let (of, part) = boxed(alloc, of, part)?;
    Ok(Wide::Fold(found, of, name, part))
}

/// A macro over an optional value.
pub fn optional_fold(
    alloc: Global,
    found: OptionalMacro,
    of: Wide,
    name: String,
    part: Wide,
) -> Result<Wide, AllocError>
    ensures { IfOk result (λ e. view e ≡ node.optional_fold found (view of) (string_bytes name) (view part)) }
{
    let (of, part) = boxed(alloc, of, part)?;
    Ok(Wide::OptionalFold(found, of, name, part))
}

/// A macro with one name, a predicate and a transform.
pub fn filter_map(
    alloc: Global,
    of: Wide,
    name: String,
    test: Wide,
    transform: Wide,
) -> Result<Wide, AllocError>
    ensures { IfOk result (λ e. view e ≡ node.filter_map (view of) (string_bytes name) (view test) (view transform)) }
{
    let (of, test, transform) = all_boxed(alloc, of, test, transform)?;
    Ok(Wide::FilterMap(of, name, test, transform))
}

/// A macro with two names.
pub fn pair_fold(
    alloc: Global,
    found: PairMacro,
    of: Wide,
    names: (String, String),
    part: Wide,
) -> Result<Wide, AllocError>
    ensures { IfOk result (λ e. view e ≡ node.pair_fold found (view of) (string_bytes names.0) (string_bytes names.1) (view part)) }
{
    let (of, part) = boxed(alloc, of, part)?;
    let (key, value) = names;
    Ok(Wide::PairFold(found, of, key, value, part))
}

/// A macro with two names, a predicate and a transform.
pub fn pair_filter_map(
    alloc: Global,
    of: Wide,
    names: (String, String),
    test: Wide,
    transform: Wide,
) -> Result<Wide, AllocError>
    ensures { IfOk result (λ e. view e ≡ node.pair_filter_map (view of) (string_bytes names.0) (string_bytes names.1) (view test) (view transform)) }
{
    let (of, test, transform) = all_boxed(alloc, of, test, transform)?;
    let (key, value) = names;
    Ok(Wide::PairFilterMap(of, key, value, test, transform))
}
