//! Builds expressions from their parts.

ghost use Rattle.std.specs.Prelude.{◌≡◌, [], ◌∷◌, ◌++◌, IfOk, string_bytes};
ghost use Rattle.std.specs.Prelude as list;
ghost use Rattle.cel_reader.specs.Tree as node;
ghost use Rattle.cel_reader.specs.Tree.{view, trees, entries, entry_view};
ghost use Rattle.wide_translation.specs.Declarations.{scope_in};
ghost use Rattle.wide_translation.specs.Forms as forms;
ghost use Rattle.wide_translation.specs.Names as names;

use crate::built;
use crate::names::{
    HELD, NAMESPACE, Names, PARAMS, PARAMS_FIELD, VARIABLES, is_condition, is_wrapped,
};
use crate::together::{both, three};
use cel_macros::Macro;
use cel_reader::{BinaryOperator, Expr, Literal, UnaryOperator};
use std::alloc::{AllocError, Global};

/// An expression in a place of its own.
fn boxed(alloc: Global, e: Expr) -> Result<Box<Expr>, AllocError>
    ensures { IfOk result (λ b. b.value ≡ e) }
{
    Ok(Box::new(alloc, e)?)
}

/// A name.
pub(crate) fn name(alloc: Global, name: &str) -> Result<Expr, AllocError>
    ensures { IfOk result (λ e. view e ≡ node.name name.now) }
{
    Ok(Expr::Name(String::from_str(alloc, name)?))
}

/// A text literal.
pub(crate) fn text(alloc: Global, text: &str) -> Result<Expr, AllocError>
    ensures { IfOk result (λ e. view e ≡ node.literal (node.text text.now)) }
{
    Ok(Expr::Literal(Literal::Text(String::from_str(alloc, text)?)))
}

/// The name that the translation binds.
pub(crate) fn held(alloc: Global) -> Result<Expr, AllocError>
    ensures { IfOk result (λ e. view e ≡ forms.held) }
{
    name(alloc, HELD)
}

/// A field of an expression.
pub(crate) fn select(alloc: Global, of: Expr, field: &str) -> Result<Expr, AllocError>
    ensures { IfOk result (λ e. view e ≡ node.select (view of) field.now) }
{
    let (of, field) = both(boxed(alloc, of), String::from_str(alloc, field))?;
    Ok(Expr::Select(of, field))
}

/// A root in the scope of these names; in match conditions `namespaceObject` is null.
pub(crate) fn root(alloc: Global, given: &str, names: &Names) -> Result<Expr, AllocError>
    ensures { IfOk result (λ e. view e ≡ forms.root_tree (scope_in names.now) given.now) }
{
    if is_condition(names) && NAMESPACE == given {
        return null(alloc);
    }
    placed(alloc, given, is_wrapped(names))
}

/// Null, of a type that is not known.
fn null(alloc: Global) -> Result<Expr, AllocError>
    ensures { IfOk result (λ e. view e ≡ forms.null_tree) }
{
    call(alloc, "dyn", Expr::Literal(Literal::Null))
}

/// A root; `params` is a field of its root if that has tables too.
fn placed(alloc: Global, given: &str, wrapped: bool) -> Result<Expr, AllocError>
    ensures { IfOk result (λ e. view e ≡ forms.placed_tree wrapped given.now) }
{
    if wrapped && PARAMS == given {
        return built::select(alloc, name(alloc, PARAMS), PARAMS_FIELD);
    }
    name(alloc, given)
}

/// A variable.
pub(crate) fn variable(alloc: Global, field: &str) -> Result<Expr, AllocError>
    ensures { IfOk result (λ e. view e ≡ forms.variable_tree field.now) }
{
    built::select(alloc, name(alloc, VARIABLES), field)
}

/// An item or entry of an expression.
pub(crate) fn index(alloc: Global, of: Expr, key: Expr) -> Result<Expr, AllocError>
    ensures { IfOk result (λ e. view e ≡ node.index (view of) (view key)) }
{
    let (of, key) = both(boxed(alloc, of), boxed(alloc, key))?;
    Ok(Expr::Index(of, key))
}

/// The first item of an expression.
pub(crate) fn first(alloc: Global, of: Expr) -> Result<Expr, AllocError>
    ensures { IfOk result (λ e. view e ≡ forms.first_tree (view of)) }
{
    index(alloc, of, Expr::Literal(Literal::Int(0)))
}

/// Expressions with one more.
pub(crate) fn more(items: Vec<Expr>, item: Expr) -> Result<Vec<Expr>, AllocError>
    ensures { IfOk result (λ v. v.items ≡ items.items ++ item ∷ []) }
{
    let mut all = items;
    all.push(item)?;
    Ok(all)
}

/// An expression alone.
fn single(alloc: Global, item: Expr) -> Result<Vec<Expr>, AllocError>
    ensures { IfOk result (λ v. v.items ≡ item ∷ []) }
{
    more(Vec::new(alloc), item)
}

/// A call of a function.
#[tactic(auto, using(cel_macros::proofs::Views::view_call))]
pub(crate) fn call_of(alloc: Global, name: &str, arguments: Vec<Expr>) -> Result<Expr, AllocError>
    ensures { IfOk result (λ e. view e ≡ node.call name.now (trees (list.map view arguments.items))) }
{
    let (callee, arguments) = both(String::from_str(alloc, name), Ok(arguments))?;
    Ok(Expr::Call(callee, arguments))
}

/// A call of a function with one argument.
pub(crate) fn call(alloc: Global, name: &str, argument: Expr) -> Result<Expr, AllocError>
    ensures { IfOk result (λ e. view e ≡ forms.call_tree name.now (view argument)) }
{
    let arguments = single(alloc, argument)?;
    call_of(alloc, name, arguments)
}

/// Whether an expression has a field.
pub(crate) fn has(alloc: Global, of: Expr, field: &str) -> Result<Expr, AllocError>
    ensures { IfOk result (λ e. view e ≡ forms.has_tree (view of) field.now) }
{
    built::has(alloc, Ok(of), field)
}

/// A call of a method.
#[tactic(auto, using(cel_macros::proofs::Views::view_method))]
pub(crate) fn method_of(
    alloc: Global,
    of: Expr,
    name: &str,
    arguments: Vec<Expr>,
) -> Result<Expr, AllocError>
    ensures { IfOk result (λ e. view e ≡ node.method (view of) name.now (trees (list.map view arguments.items))) }
{
    let (of, callee, arguments) = three(
        boxed(alloc, of),
        String::from_str(alloc, name),
        Ok(arguments),
    )?;
    Ok(Expr::Method(of, callee, arguments))
}

/// A call of a method without arguments.
pub(crate) fn method(alloc: Global, of: Expr, name: &str) -> Result<Expr, AllocError>
    ensures { IfOk result (λ e. view e ≡ node.method (view of) name.now node.no_trees) }
{
    method_of(alloc, of, name, Vec::new(alloc))
}

/// A call of a method with one argument.
pub(crate) fn method_with(
    alloc: Global,
    of: Expr,
    name: &str,
    argument: Expr,
) -> Result<Expr, AllocError>
    ensures { IfOk result (λ e. view e ≡ node.method (view of) name.now (node.more_trees (view argument) node.no_trees)) }
{
    built::method_of(alloc, Ok(of), name, single(alloc, argument))
}

/// An operator before an operand.
pub(crate) fn unary(
    alloc: Global,
    operator: UnaryOperator,
    operand: Expr,
) -> Result<Expr, AllocError>
    ensures { IfOk result (λ e. view e ≡ node.unary operator (view operand)) }
{
    Ok(Expr::Unary(operator, boxed(alloc, operand)?))
}

/// An operator between operands.
pub(crate) fn binary(
    alloc: Global,
    operator: BinaryOperator,
    left: Expr,
    right: Expr,
) -> Result<Expr, AllocError>
    ensures { IfOk result (λ e. view e ≡ node.binary operator (view left) (view right)) }
{
    let (left, right) = both(boxed(alloc, left), boxed(alloc, right))?;
    Ok(Expr::Binary(operator, left, right))
}

/// A conditional.
pub(crate) fn ternary(
    alloc: Global,
    condition: Expr,
    yes: Expr,
    no: Expr,
) -> Result<Expr, AllocError>
    ensures { IfOk result (λ e. view e ≡ node.ternary (view condition) (view yes) (view no)) }
{
    let (condition, yes, no) = three(boxed(alloc, condition), boxed(alloc, yes), boxed(alloc, no))?;
    Ok(Expr::Ternary(condition, yes, no))
}

/// An empty list literal.
pub(crate) fn empty(alloc: Global) -> Expr
    ensures { view result ≡ forms.empty_tree }
{
    Expr::List(Vec::new(alloc))
}

/// A list literal of one item.
pub(crate) fn one(alloc: Global, item: Expr) -> Result<Expr, AllocError>
    ensures { IfOk result (λ e. view e ≡ forms.one_tree (view item)) }
{
    let items = single(alloc, item)?;
    Ok(list(items))
}

/// A list literal.
pub(crate) fn list(items: Vec<Expr>) -> Expr
    ensures { view result ≡ node.list (trees (list.map view items.items)) }
{
    Expr::List(items)
}

/// A map literal.
pub(crate) fn map(pairs: Vec<(Expr, Expr)>) -> Expr
    ensures { view result ≡ node.map (entries (list.map entry_view pairs.items)) }
{
    Expr::Map(pairs)
}

/// A macro over a range, by its name.
fn macro_named(
    alloc: Global,
    name: &str,
    item: &str,
    range: Expr,
    part: Expr,
) -> Result<Expr, AllocError>
    ensures { IfOk result (λ e. view e ≡ node.method (view range) name.now (node.more_trees (node.name item.now) (node.more_trees (view part) node.no_trees))) }
{
    let arguments = built::pair(alloc, self::name(alloc, item), Ok(part));
    built::method_of(alloc, Ok(range), name, arguments)
}

/// A macro over a range.
pub(crate) fn fold(
    alloc: Global,
    found: Macro,
    item: &str,
    range: Expr,
    part: Expr,
) -> Result<Expr, AllocError>
    ensures { IfOk result (λ e. view e ≡ forms.macro_tree found item.now (view range) (view part)) }
{
    match found {
        Macro::All => macro_named(alloc, "all", item, range, part),
        Macro::Exists => macro_named(alloc, "exists", item, range, part),
        Macro::ExistsOne => macro_named(alloc, "exists_one", item, range, part),
        Macro::Filter => macro_named(alloc, "filter", item, range, part),
        Macro::Map => macro_named(alloc, "map", item, range, part),
    }
}

/// `map` with a predicate and a transform.
pub(crate) fn filter_map(
    alloc: Global,
    item: &str,
    range: Expr,
    predicate: Expr,
    transform: Expr,
) -> Result<Expr, AllocError>
    ensures { IfOk result (λ e. view e ≡ forms.filter_map_tree item.now (view range) (view predicate) (view transform)) }
{
    let arguments = built::pair(alloc, name(alloc, item), Ok(predicate));
    built::method_of(
        alloc,
        Ok(range),
        "map",
        built::more(arguments, Ok(transform)),
    )
}

/// An expression with a name for the value of another.
pub(crate) fn bound_to(alloc: Global, name: &str, of: Expr, body: Expr) -> Result<Expr, AllocError>
    ensures { IfOk result (λ e. view e ≡ forms.let_tree name.now (view of) (view body)) }
{
    built::bound_to(alloc, name, Ok(of), Ok(body))
}

/// An expression with the name that the translation binds for the value of another.
pub(crate) fn bound(alloc: Global, of: Expr, body: Expr) -> Result<Expr, AllocError>
    ensures { IfOk result (λ e. view e ≡ forms.let_tree names.held_name (view of) (view body)) }
{
    bound_to(alloc, HELD, of, body)
}

/// The list of an expression if a guard holds, else the empty list.
pub(crate) fn guarded(alloc: Global, guard: Expr, value: Expr) -> Result<Expr, AllocError>
    ensures { IfOk result (λ e. view e ≡ forms.guarded_tree (view guard) (view value)) }
{
    built::guarded(alloc, Ok(guard), Ok(value))
}

/// What a list is for the item of another, or the empty list.
pub(crate) fn flat(alloc: Global, item: &str, of: Expr, body: Expr) -> Result<Expr, AllocError>
    ensures { IfOk result (λ e. view e ≡ forms.flat_tree item.now (view of) (view body)) }
{
    built::flat(alloc, item, Ok(of), Ok(body))
}

/// Whether an expression is cheap to write again.
pub(crate) fn is_simple(e: &Expr) -> bool
    ensures { result ≡ forms.is_simple (view e.now) }
{
    match e {
        Expr::Literal(_) => true,
        Expr::Name(_) => true,
        Expr::Select(of, _) => is_simple(of),
        Expr::Index(of, at) => is_simple(of) && is_leaf(at),
        _ => false,
    }
}

/// Whether an expression is a literal or a name.
fn is_leaf(e: &Expr) -> bool
    ensures { result ≡ forms.is_leaf (view e.now) }
{
    matches!(e, Expr::Literal(_) | Expr::Name(_))
}
