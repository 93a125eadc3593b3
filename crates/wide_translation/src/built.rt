//! Builds expressions from others that were built before, unless an allocation failed.

ghost use Rattle.std.specs.Prelude.{◌≡◌, [], ◌∷◌, ◌++◌, IfOk, Ok};
ghost use Rattle.std.specs.Prelude as list;
ghost use Rattle.std.specs.declared.alloc.Global.{Global};
ghost use Rattle.std.specs.declared.vec.Vec.{Vec};
ghost use Rattle.cel_reader.specs.Tree as node;
ghost use Rattle.cel_reader.specs.Tree.{trees, view, entries, entry_view};
ghost use Rattle.cel_reader.specs.declared.expr.Expr.{Expr};
ghost use Rattle.wide_translation.specs.Built.{FormOf, FormOfTwo, FormOfThree, FormOfItems};
ghost use Rattle.wide_translation.specs.Forms as forms;
ghost use Rattle.wide_translation.specs.Names as names;

use crate::build;
use crate::names::HELD;
use crate::together::{both, three};
use cel_macros::Macro;
use cel_reader::{BinaryOperator, Expr, UnaryOperator};
use std::alloc::{AllocError, Global};

/// An expression, or that an allocation failed.
pub(crate) type Built = Result<Expr, AllocError>;

/// Expressions, or that an allocation failed.
pub(crate) type Items = Result<Vec<Expr>, AllocError>;

/// Keys and values, or that an allocation failed.
pub(crate) type Entries = Result<Vec<(Expr, Expr)>, AllocError>;

/// A field of an expression.
pub(crate) fn select(alloc: Global, of: Built, field: &str) -> Built
    ensures { FormOf (λ a. node.select a field.now) of result }
{
    build::select(alloc, of?, field)
}

/// An item or entry of an expression.
pub(crate) fn index(alloc: Global, of: Built, key: Built) -> Built
    ensures { FormOfTwo node.index of key result }
{
    let (of, key) = both(of, key)?;
    build::index(alloc, of, key)
}

/// The first item of an expression.
pub(crate) fn first(alloc: Global, of: Built) -> Built
    ensures { FormOf forms.first_tree of result }
{
    build::first(alloc, of?)
}

/// A call of a function with one argument.
pub(crate) fn call(alloc: Global, name: &str, argument: Built) -> Built
    ensures { FormOf (forms.call_tree name.now) argument result }
{
    build::call(alloc, name, argument?)
}

/// Whether an expression has a field.
pub(crate) fn has(alloc: Global, of: Built, field: &str) -> Built
    ensures { FormOf (λ a. forms.has_tree a field.now) of result }
{
    call(alloc, "has", select(alloc, of, field))
}

/// An operator before an operand.
pub(crate) fn unary(alloc: Global, operator: UnaryOperator, operand: Built) -> Built
    ensures { FormOf (node.unary operator) operand result }
{
    build::unary(alloc, operator, operand?)
}

/// An operator between operands.
pub(crate) fn binary(alloc: Global, operator: BinaryOperator, left: Built, right: Built) -> Built
    ensures { FormOfTwo (node.binary operator) left right result }
{
    let (left, right) = both(left, right)?;
    build::binary(alloc, operator, left, right)
}

/// A conditional.
pub(crate) fn ternary(alloc: Global, condition: Built, yes: Built, no: Built) -> Built
    ensures { FormOfThree node.ternary condition yes no result }
{
    let (condition, yes, no) = three(condition, yes, no)?;
    build::ternary(alloc, condition, yes, no)
}

/// A list literal of one item.
pub(crate) fn one(alloc: Global, item: Built) -> Built
    ensures { FormOf forms.one_tree item result }
{
    build::one(alloc, item?)
}

/// A macro over a range.
pub(crate) fn fold(alloc: Global, found: Macro, item: &str, range: Built, part: Built) -> Built
    ensures { FormOfTwo (forms.macro_tree found item.now) range part result }
{
    let (range, part) = both(range, part)?;
    build::fold(alloc, found, item, range, part)
}

/// An expression with a name for the value of another.
pub(crate) fn bound_to(alloc: Global, name: &str, of: Built, body: Built) -> Built
    ensures { FormOfTwo (forms.let_tree name.now) of body result }
{
    first(alloc, fold(alloc, Macro::Map, name, one(alloc, of), body))
}

/// An expression with the name that the translation binds for the value of another.
pub(crate) fn bound(alloc: Global, of: Built, body: Built) -> Built
    ensures { FormOfTwo (forms.let_tree names.held_name) of body result }
{
    bound_to(alloc, HELD, of, body)
}

/// The list of an expression if a guard holds, else the empty list.
pub(crate) fn guarded(alloc: Global, guard: Built, value: Built) -> Built
    ensures { FormOfTwo forms.guarded_tree guard value result }
{
    ternary(alloc, guard, one(alloc, value), Ok(build::empty(alloc)))
}

/// What a list is for the item of another, or the empty list.
pub(crate) fn flat(alloc: Global, item: &str, of: Built, body: Built) -> Built
    ensures { FormOfTwo (forms.flat_tree item.now) of body result }
{
    let mapped = fold(alloc, Macro::Map, item, of, body);
    let last = build::one(alloc, build::empty(alloc));
    first(alloc, binary(alloc, BinaryOperator::Add, mapped, last))
}

// ---- items

/// Expressions with one more.
pub(crate) fn more(items: Items, item: Built) -> Items
    ensures { IfOk result (λ v. (xs : Vec Expr Global) × (x : Expr) × (items ≡ Ok xs) × (item ≡ Ok x) × (v.items ≡ xs.items ++ x ∷ [])) }
{
    let (items, item) = both(items, item)?;
    let mut all = items;
    all.push(item)?;
    Ok(all)
}

/// Two expressions.
pub(crate) fn pair(alloc: Global, first: Built, second: Built) -> Items
    ensures { IfOk result (λ v. (x : Expr) × (y : Expr) × (first ≡ Ok x) × (second ≡ Ok y) × (v.items ≡ x ∷ y ∷ [])) }
{
    more(more(Ok(Vec::new(alloc)), first), second)
}

/// A list literal.
pub(crate) fn list(items: Items) -> Built
    ensures { FormOfItems node.list items result }
{
    Ok(build::list(items?))
}

/// A call of a function.
pub(crate) fn call_of(alloc: Global, name: &str, arguments: Items) -> Built
    ensures { FormOfItems (node.call name.now) arguments result }
{
    Ok(build::call_of(alloc, name, arguments?)?)
}

/// A call of a method.
pub(crate) fn method_of(alloc: Global, of: Built, name: &str, arguments: Items) -> Built
    ensures { IfOk result (λ e. (x : Expr) × (xs : Vec Expr Global) × (of ≡ Ok x) × (arguments ≡ Ok xs) × (view e ≡ node.method (view x) name.now (trees (list.map view xs.items)))) }
{
    let (of, arguments) = both(of, arguments)?;
    Ok(build::method_of(alloc, of, name, arguments)?)
}

/// Keys and values with one more.
pub(crate) fn entry_more(pairs: Entries, key: Built, value: Built) -> Entries
    ensures { IfOk result (λ v. (ps : Vec (Expr × Expr) Global) × (k : Expr) × (x : Expr) × (pairs ≡ Ok ps) × (key ≡ Ok k) × (value ≡ Ok x) × (v.items ≡ ps.items ++ (k, x) ∷ [])) }
{
    let (pairs, first, second) = three(pairs, key, value)?;
    let mut all = pairs;
    all.push((first, second))?;
    Ok(all)
}

/// A map literal.
pub(crate) fn map(pairs: Entries) -> Built
    ensures { IfOk result (λ e. (ps : Vec (Expr × Expr) Global) × (pairs ≡ Ok ps) × (view e ≡ node.map (entries (list.map entry_view ps.items)))) }
{
    Ok(build::map(pairs?))
}
