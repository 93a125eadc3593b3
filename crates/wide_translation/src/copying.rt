//! Copies of expressions.

ghost use Rattle.std.specs.Prelude.{◌≡◌, IfOk};
ghost use Rattle.std.specs.Prelude as list;
ghost use Rattle.cel_reader.specs.Tree as node;
ghost use Rattle.cel_reader.specs.Tree.{view, entry_view, literal_view};

use crate::{build, built};
use cel_reader::{Expr, Literal};
use std::alloc::{AllocError, Global};

/// A copy of a literal.
pub(crate) fn literal(alloc: Global, literal: &Literal) -> Result<Expr, AllocError>
    ensures { IfOk result (λ e. view e ≡ node.literal (literal_view literal.now)) }
{
    match literal {
        Literal::Int(n) => Ok(Expr::Literal(Literal::Int(*n))),
        Literal::Text(text) => {
            let copy = String::from_str(alloc, text.as_str())?;
            Ok(Expr::Literal(Literal::Text(copy)))
        }
        Literal::Bool(b) => Ok(Expr::Literal(Literal::Bool(*b))),
        Literal::Null => Ok(Expr::Literal(Literal::Null)),
    }
}

/// Copies of expressions.
#[cycle(copying)]
fn copies(alloc: Global, items: &[Expr]) -> Result<Vec<Expr>, AllocError>
    ensures { IfOk result (λ v. list.map view v.items ≡ list.map view items.now) }
{
    let mut out = Ok(Vec::new(alloc));
    for item in items {
        out = built::more(out, copy(alloc, item));
    }
    out
}

/// Copies of keys and values.
#[cycle(copying)]
pub(crate) fn entry_copies(
    alloc: Global,
    pairs: &[(Expr, Expr)],
) -> Result<Vec<(Expr, Expr)>, AllocError>
    ensures { IfOk result (λ v. list.map entry_view v.items ≡ list.map entry_view pairs.now) }
{
    let mut out = Ok(Vec::new(alloc));
    for (key, value) in pairs {
        out = built::entry_more(out, copy(alloc, key), copy(alloc, value));
    }
    out
}

/// A copy of an expression.
#[cycle(copying)]
#[tactic(auto, using(cel_macros::proofs::Views::view_call, cel_macros::proofs::Views::view_method, cel_macros::proofs::Views::view_list, cel_macros::proofs::Views::view_map))]
pub(crate) fn copy(alloc: Global, e: &Expr) -> Result<Expr, AllocError>
    ensures { IfOk result (λ a. view a ≡ view e.now) }
{
    match e {
        Expr::Literal(given) => literal(alloc, given),
        Expr::Name(name) => build::name(alloc, name.as_str()),
        Expr::Select(of, field) => built::select(alloc, copy(alloc, of), field.as_str()),
        Expr::Index(of, at) => built::index(alloc, copy(alloc, of), copy(alloc, at)),
        Expr::Call(name, arguments) => {
            let parts = copies(alloc, arguments.as_slice());
            built::call_of(alloc, name.as_str(), parts)
        }
        Expr::Method(of, name, arguments) => {
            let parts = copies(alloc, arguments.as_slice());
            built::method_of(alloc, copy(alloc, of), name.as_str(), parts)
        }
        Expr::Unary(operator, operand) => built::unary(alloc, *operator, copy(alloc, operand)),
        Expr::Binary(operator, left, right) => {
            built::binary(alloc, *operator, copy(alloc, left), copy(alloc, right))
        }
        Expr::Ternary(condition, yes, no) => {
            built::ternary(
                alloc,
                copy(alloc, condition),
                copy(alloc, yes),
                copy(alloc, no),
            )
        }
        Expr::List(items) => built::list(copies(alloc, items.as_slice())),
        Expr::Map(pairs) => built::map(entry_copies(alloc, pairs.as_slice())),
    }
}
