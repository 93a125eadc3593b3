//! Prints expressions.

ghost use Rattle.std.specs.Prelude.{◌≡◌, ◌++◌, codes, OnOk, string_bytes, true};
ghost use Rattle.std.specs.Prelude as list;
ghost use Rattle.cel_reader.specs.Tree.{entries, literal_view, trees, view};
ghost use Rattle.cel_writer.specs.Printed as specs;
ghost use Rattle.cel_writer.specs.Printed.{entries_listed, listed, literal_text, printed_in};

use crate::quoting::put_quoted;
use cel_reader::{BinaryOperator, Expr, Literal, UnaryOperator};
use std::alloc::AllocError;

/// A binary operator with the blanks around it.
pub(crate) fn operator_text(operator: BinaryOperator) -> &'static str
    ensures { result.now ≡ specs.operator_text operator }
{
    match operator {
        BinaryOperator::Or => " || ",
        BinaryOperator::And => " && ",
        BinaryOperator::Less => " < ",
        BinaryOperator::LessEqual => " <= ",
        BinaryOperator::GreaterEqual => " >= ",
        BinaryOperator::Greater => " > ",
        BinaryOperator::Equal => " == ",
        BinaryOperator::NotEqual => " != ",
        BinaryOperator::In => " in ",
        BinaryOperator::Add => " + ",
        BinaryOperator::Subtract => " - ",
        BinaryOperator::Multiply => " * ",
        BinaryOperator::Divide => " / ",
        BinaryOperator::Remainder => " % ",
    }
}

/// A unary operator and what opens its operand.
pub(crate) fn prefix_text(operator: UnaryOperator) -> &'static str
    ensures { result.now ≡ specs.prefix_text operator }
{
    match operator {
        UnaryOperator::Not => "(!(",
        UnaryOperator::Negate => "(-(",
    }
}

/// Whether an operation is the left operand of one with the same operator.
fn continues(around: Option<BinaryOperator>, operator: BinaryOperator) -> bool
    ensures { result ≡ specs.continues around operator }
{
    match around {
        Some(around) => operator_text(around) == operator_text(operator),
        None => false,
    }
}

fn put_literal(out: &mut String, literal: &Literal) -> Result<(), AllocError>
    ensures { OnOk result (string_bytes out.new ≡ string_bytes out.old ++ literal_text (literal_view literal.now)) }
{
    match literal {
        Literal::Int(value) => {
            let digits = value.to_string(*out.allocator())?;
            out.push_str(digits.as_str())
        }
        Literal::Text(text) => put_quoted(out, text.as_str()),
        Literal::Bool(true) => out.push_str("true"),
        Literal::Bool(false) => out.push_str("false"),
        Literal::Null => out.push_str("null"),
    }
}

/// What is before an operation.
fn opening(continues: bool) -> &'static str
    ensures { result.now ≡ specs.opening continues }
{
    if continues { "" } else { "(" }
}

/// What is after an operation.
fn closing(continues: bool) -> &'static str
    ensures { result.now ≡ specs.closing continues }
{
    if continues { "" } else { ")" }
}

/// What is before an item or an entry.
fn separator(is_first: bool) -> &'static str
    ensures { result.now ≡ specs.separator is_first }
{
    if is_first { "" } else { ", " }
}

/// Appends expressions with commas between them.
#[cycle(put)]
fn put_all(out: &mut String, items: &[Expr]) -> Result<(), AllocError>
    ensures { OnOk result (string_bytes out.new ≡ string_bytes out.old ++ listed true (trees (list.map view items.now))) }
{
    let mut is_first = true;
    for item in items {
        out.push_str(separator(is_first))?;
        put(out, item, None)?;
        is_first = false;
    }
    Ok(())
}

/// Appends entries with commas between them.
#[cycle(put)]
fn put_entries(out: &mut String, pairs: &[(Expr, Expr)]) -> Result<(), AllocError>
    ensures { OnOk result (string_bytes out.new ≡ string_bytes out.old ++ entries_listed true (entries (list.map (λ e. (view e.0, view e.1)) pairs.now))) }
{
    let mut is_first = true;
    for (key, value) in pairs {
        out.push_str(separator(is_first))?;
        put(out, key, None)?;
        out.push_str(": ")?;
        put(out, value, None)?;
        is_first = false;
    }
    Ok(())
}

/// Appends a map literal.
#[cycle(put)]
fn put_map(out: &mut String, pairs: &[(Expr, Expr)]) -> Result<(), AllocError>
    ensures { OnOk result (string_bytes out.new ≡ string_bytes out.old ++ (codes "{" ++ entries_listed true (entries (list.map (λ e. (view e.0, view e.1)) pairs.now)) ++ codes "}")) }
{
    out.push_str("{")?;
    put_entries(out, pairs)?;
    out.push_str("}")
}

/// Appends arguments in brackets, after a name.
#[cycle(put)]
fn put_call(out: &mut String, name: &str, arguments: &[Expr]) -> Result<(), AllocError>
    ensures { OnOk result (string_bytes out.new ≡ string_bytes out.old ++ (name.now ++ codes "(" ++ listed true (trees (list.map view arguments.now)) ++ codes ")")) }
{
    out.push_str(name)?;
    out.push_str("(")?;
    put_all(out, arguments)?;
    out.push_str(")")
}

/// Appends the text of the expression, which is a left operand of the operator `around`, if there is one.
#[cycle(put)]
#[tactic(auto, using(crate::proofs::Views::view_call, crate::proofs::Views::view_list, crate::proofs::Views::view_map, crate::proofs::Views::view_method), unfolding(crate::specs::Printed::printed_in))]
pub(crate) fn put(
    out: &mut String,
    e: &Expr,
    around: Option<BinaryOperator>,
) -> Result<(), AllocError>
    ensures { OnOk result (string_bytes out.new ≡ string_bytes out.old ++ printed_in around (view e.now)) }
{
    match e {
        Expr::Literal(literal) => put_literal(out, literal),
        Expr::Name(name) => out.push_str(name.as_str()),
        Expr::Select(of, field) => {
            put(out, of, None)?;
            out.push_str(".")?;
            out.push_str(field.as_str())
        }
        Expr::Index(of, at) => {
            put(out, of, None)?;
            out.push_str("[")?;
            put(out, at, None)?;
            out.push_str("]")
        }
        Expr::Call(name, arguments) => put_call(out, name.as_str(), arguments.as_slice()),
        Expr::Method(of, name, arguments) => {
            put(out, of, None)?;
            out.push_str(".")?;
            put_call(out, name.as_str(), arguments.as_slice())
        }
        Expr::Unary(operator, operand) => {
            out.push_str(prefix_text(*operator))?;
            put(out, operand, None)?;
            out.push_str("))")
        }
        Expr::Binary(operator, left, right) => {
            let continues = continues(around, *operator);
            out.push_str(opening(continues))?;
            put(out, left, Some(*operator))?;
            out.push_str(operator_text(*operator))?;
            put(out, right, None)?;
            out.push_str(closing(continues))
        }
        Expr::Ternary(condition, yes, no) => {
            out.push_str("(")?;
            put(out, condition, None)?;
            out.push_str(" ? ")?;
            put(out, yes, None)?;
            out.push_str(" : ")?;
            put(out, no, None)?;
            out.push_str(")")
        }
        Expr::List(items) => {
            out.push_str("[")?;
            put_all(out, items.as_slice())?;
            out.push_str("]")
        }
        Expr::Map(pairs) => put_map(out, pairs.as_slice()),
    }
}
