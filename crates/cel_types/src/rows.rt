//! The rows of the table of types.

ghost use Rattle.std.specs.Prelude.{◌≡◌, ◌&&◌, [], ◌∷◌, cond};
ghost use Rattle.std.specs.List.{list_any};
ghost use Rattle.cel_reader.specs.Tree.{literal_view};
ghost use Rattle.cel_macros.specs.Callee.{callee_view, function_in, test_in};
ghost use Rattle.cel_types.specs.declared.cel_type.CelType.TheVariants as kind;
ghost use Rattle.cel_types.specs.TypeTable as table;
ghost use Rattle.cel_types.specs.Types as types;
ghost use Rattle.cel_types.specs.Types.{typing_of};

use crate::cel_type::CelType;
use crate::type_error::TypeError;
use cel_macros::{Callee, Function, Macro, TextTest};
use cel_reader::{BinaryOperator, Literal, UnaryOperator};

/// Whether two types are the same.
fn same(a: CelType, b: CelType) -> bool
    ensures { result ≡ types.same_type a b }
{
    a == b
}

/// Whether the type is one of these.
fn is_among(wanted: &[CelType], t: CelType) -> bool
    ensures { result ≡ list_any (types.same_type t) wanted.now }
{
    wanted.iter().any(|w| same(t, *w))
}

/// Whether the type is one of these, or Dyn.
fn allows(wanted: &[CelType], t: CelType) -> bool
    ensures { result ≡ types.allowed wanted.now t }
{
    same(t, CelType::Dyn) || is_among(wanted, t)
}

/// Whether both types are among these, or Dyn.
fn allows_both(wanted: &[CelType], a: CelType, b: CelType) -> bool
    ensures { result ≡ types.both_allowed wanted.now a b }
{
    allows(wanted, a) && allows(wanted, b)
}

/// Whether the types are the same, or one is Dyn.
fn agree(a: CelType, b: CelType) -> bool
    ensures { result ≡ types.agree a b }
{
    same(a, b) || (same(a, CelType::Dyn) || same(b, CelType::Dyn))
}

/// The type, if the row holds.
fn row(holds: bool, t: CelType) -> Result<CelType, TypeError>
    ensures { typing_of result ≡ types.row holds t }
{
    if holds {
        return Ok(t);
    }
    Err(TypeError::NoMatchingOverload)
}

/// The type of a literal.
pub(crate) fn literal(literal: &Literal) -> CelType
    ensures { result ≡ table.literal_type (literal_view literal.now) }
{
    match literal {
        Literal::Int(_) => CelType::Int,
        Literal::Text(_) => CelType::String,
        Literal::Bool(_) => CelType::Bool,
        Literal::Null => CelType::Null,
    }
}

/// The type of a field.
pub(crate) fn field(of: CelType) -> Result<CelType, TypeError>
    ensures { typing_of result ≡ table.field_row of }
{
    row(allows(&[CelType::Map], of), CelType::Dyn)
}

/// The type of `has`.
pub(crate) fn has(of: CelType) -> Result<CelType, TypeError>
    ensures { typing_of result ≡ table.has_row of }
{
    row(allows(&[CelType::Map], of), CelType::Bool)
}

/// The type of an item or a map's value.
pub(crate) fn index(of: CelType, at: CelType) -> Result<CelType, TypeError>
    ensures { typing_of result ≡ table.index_row of at }
{
    match of {
        CelType::List => row(allows(&[CelType::Int], at), CelType::Dyn),
        CelType::Map => row(allows(&[CelType::String], at), CelType::Dyn),
        CelType::Dyn => row(allows(&[CelType::Int, CelType::String], at), CelType::Dyn),
        _ => Err(TypeError::NoMatchingOverload),
    }
}

/// The type of a unary operator.
pub(crate) fn unary(operator: UnaryOperator, t: CelType) -> Result<CelType, TypeError>
    ensures { typing_of result ≡ table.unary_row operator t }
{
    match operator {
        UnaryOperator::Not => row(allows(&[CelType::Bool], t), CelType::Bool),
        UnaryOperator::Negate => row(allows(&[CelType::Int], t), CelType::Int),
    }
}

/// The type of a logical operator.
fn logic(a: CelType, b: CelType) -> Result<CelType, TypeError>
    ensures { typing_of result ≡ table.logic_row a b }
{
    row(allows_both(&[CelType::Bool], a, b), CelType::Bool)
}

/// Whether two types can be ordered.
fn are_ordered(a: CelType, b: CelType) -> bool
    ensures { result ≡ (types.both_allowed (kind.Int ∷ kind.String ∷ kind.Bool ∷ []) a b && types.agree a b) }
{
    allows_both(&[CelType::Int, CelType::String, CelType::Bool], a, b) && agree(a, b)
}

/// The type of an ordering operator.
fn order(a: CelType, b: CelType) -> Result<CelType, TypeError>
    ensures { typing_of result ≡ table.order_row a b }
{
    row(are_ordered(a, b), CelType::Bool)
}

/// The type of a membership.
fn member(x: CelType, of: CelType) -> Result<CelType, TypeError>
    ensures { typing_of result ≡ table.member_row x of }
{
    match of {
        CelType::List | CelType::Dyn => Ok(CelType::Bool),
        CelType::Map => row(allows(&[CelType::String], x), CelType::Bool),
        _ => Err(TypeError::NoMatchingOverload),
    }
}

/// Whether two types can be added.
fn are_added(a: CelType, b: CelType) -> bool
    ensures { result ≡ (types.both_allowed (kind.Int ∷ kind.String ∷ kind.List ∷ []) a b && types.agree a b) }
{
    allows_both(&[CelType::Int, CelType::String, CelType::List], a, b) && agree(a, b)
}

/// The one of two types that is not Dyn, if there is one.
fn known(a: CelType, b: CelType) -> CelType
    ensures { result ≡ types.known_of a b }
{
    if same(a, CelType::Dyn) { b } else { a }
}

/// The type of a sum.
fn sum(a: CelType, b: CelType) -> Result<CelType, TypeError>
    ensures { typing_of result ≡ table.sum_row a b }
{
    row(are_added(a, b), known(a, b))
}

/// The type of arithmetic on ints.
fn arithmetic(a: CelType, b: CelType) -> Result<CelType, TypeError>
    ensures { typing_of result ≡ table.arithmetic_row a b }
{
    row(allows_both(&[CelType::Int], a, b), CelType::Int)
}

/// The type of a binary operator.
pub(crate) fn binary(operator: BinaryOperator, a: CelType, b: CelType) -> Result<CelType, TypeError>
    ensures { typing_of result ≡ table.binary_row operator a b }
{
    match operator {
        BinaryOperator::Or | BinaryOperator::And => logic(a, b),
        BinaryOperator::Less
        | BinaryOperator::LessEqual
        | BinaryOperator::GreaterEqual
        | BinaryOperator::Greater => order(a, b),
        BinaryOperator::Equal | BinaryOperator::NotEqual => row(agree(a, b), CelType::Bool),
        BinaryOperator::In => member(a, b),
        BinaryOperator::Add => sum(a, b),
        BinaryOperator::Subtract
        | BinaryOperator::Multiply
        | BinaryOperator::Divide
        | BinaryOperator::Remainder => arithmetic(a, b),
    }
}

/// The type of the branches of a conditional.
fn branches(yes: CelType, no: CelType) -> CelType
    ensures { result ≡ cond (types.same_type yes no) yes kind.Dyn }
{
    if same(yes, no) { yes } else { CelType::Dyn }
}

/// Whether a conditional has a type.
fn is_conditional(condition: CelType, yes: CelType, no: CelType) -> bool
    ensures { result ≡ (types.allowed (kind.Bool ∷ []) condition && types.agree yes no) }
{
    allows(&[CelType::Bool], condition) && agree(yes, no)
}

/// The type of a conditional.
pub(crate) fn ternary(condition: CelType, yes: CelType, no: CelType) -> Result<CelType, TypeError>
    ensures { typing_of result ≡ table.ternary_row condition yes no }
{
    row(is_conditional(condition, yes, no), branches(yes, no))
}

/// The type of a size.
fn size(t: CelType) -> Result<CelType, TypeError>
    ensures { typing_of result ≡ table.size_row t }
{
    row(
        allows(&[CelType::String, CelType::List, CelType::Map], t),
        CelType::Int,
    )
}

/// The type of a function of one operand.
pub(crate) fn function(callee: &Callee, t: CelType) -> Result<CelType, TypeError>
    ensures { typing_of result ≡ table.function_row (function_in (callee_view callee.now)) t }
{
    match callee {
        Callee::Function(Function::Size) => size(t),
        Callee::Function(Function::String) => {
            row(allows(&[CelType::Int, CelType::String], t), CelType::String)
        }
        Callee::Function(Function::Dyn) => Ok(CelType::Dyn),
        Callee::Test(_) | Callee::Unknown(_) => Err(TypeError::NoMatchingOverload),
    }
}

/// The type of a method without arguments.
pub(crate) fn method(callee: &Callee, t: CelType) -> Result<CelType, TypeError>
    ensures { typing_of result ≡ table.method_row (function_in (callee_view callee.now)) t }
{
    match callee {
        Callee::Function(Function::Size) => size(t),
        Callee::Function(Function::String | Function::Dyn) | Callee::Test(_) | Callee::Unknown(_) =>
            Err(TypeError::NoMatchingOverload),
    }
}

/// The type of a test of a text by another text.
pub(crate) fn text_test(callee: &Callee, a: CelType, b: CelType) -> Result<CelType, TypeError>
    ensures { typing_of result ≡ table.test_row (test_in (callee_view callee.now)) a b }
{
    match callee {
        Callee::Test(TextTest::StartsWith | TextTest::EndsWith | TextTest::Contains) => {
            row(allows_both(&[CelType::String], a, b), CelType::Bool)
        }
        Callee::Function(_) | Callee::Unknown(_) => Err(TypeError::NoMatchingOverload),
    }
}

/// Whether a macro accepts a predicate or transform of this type.
fn takes(found: Macro, part: CelType) -> bool
    ensures { result ≡ table.part_allowed found part }
{
    match found {
        Macro::Map => true,
        Macro::All | Macro::Exists | Macro::ExistsOne | Macro::Filter => {
            allows(&[CelType::Bool], part)
        }
    }
}

/// The type of a macro.
fn gives(found: Macro) -> CelType
    ensures { result ≡ table.macro_type found }
{
    match found {
        Macro::All | Macro::Exists | Macro::ExistsOne => CelType::Bool,
        Macro::Filter | Macro::Map => CelType::List,
    }
}

/// Whether a macro accepts this range and this part.
fn is_fold(found: Macro, range: CelType, part: CelType) -> bool
    ensures { result ≡ (table.is_range range && table.part_allowed found part) }
{
    allows(&[CelType::List, CelType::Map], range) && takes(found, part)
}

/// The type of a macro over a range.
pub(crate) fn fold(found: Macro, range: CelType, part: CelType) -> Result<CelType, TypeError>
    ensures { typing_of result ≡ table.macro_row found range part }
{
    row(is_fold(found, range, part), gives(found))
}

/// The type of `map` with a predicate.
pub(crate) fn fold_map(
    range: CelType,
    predicate: CelType,
    transform: CelType,
) -> Result<CelType, TypeError>
    ensures { typing_of result ≡ table.map_row range predicate transform }
{
    row(is_fold(Macro::Filter, range, predicate), CelType::List)
}

/// Whether all keys are texts, given that the earlier ones are or are not, and the type of the next
/// one.
pub(crate) fn keep_texts(texts: bool, key: CelType) -> bool
    ensures { result ≡ (texts && types.allowed (kind.String ∷ []) key) }
{
    texts && allows(&[CelType::String], key)
}

/// The type of a map literal; `texts` says whether all its keys are texts.
pub(crate) fn map_literal(texts: bool) -> Result<CelType, TypeError>
    ensures { typing_of result ≡ table.map_literal_row texts }
{
    row(texts, CelType::Map)
}
