//! Compares expressions.

ghost use Rattle.std.specs.Prelude.{◌≡◌, bytes_eq};
ghost use Rattle.std.specs.Prelude as list;
ghost use Rattle.cel_reader.specs.Tree.{entries, literal_view, trees, view};
ghost use Rattle.cel_writer.specs.Same.{same_entries, same_int, same_literal, same_tree, same_trees, same_truth};

use crate::printing::{operator_text, prefix_text};
use cel_reader::{Expr, Literal};

fn same_text(a: &str, b: &str) -> bool
    ensures { result ≡ bytes_eq a.now b.now }
{
    a == b
}

fn same_int(a: i64, b: i64) -> bool
    ensures { result ≡ same_int a b }
{
    a == b
}

fn same_truth(a: bool, b: bool) -> bool
    ensures { result ≡ same_truth a b }
{
    a == b
}

fn same_literal(a: &Literal, b: &Literal) -> bool
    ensures { result ≡ same_literal (literal_view a.now) (literal_view b.now) }
{
    match (a, b) {
        (Literal::Int(m), Literal::Int(n)) => same_int(*m, *n),
        (Literal::Text(s), Literal::Text(t)) => same_text(s.as_str(), t.as_str()),
        (Literal::Bool(x), Literal::Bool(y)) => same_truth(*x, *y),
        (Literal::Null, Literal::Null) => true,
        _ => false,
    }
}

#[cycle(same)]
#[tactic(auto, using(crate::proofs::Compared::other_length))]
fn are_same(a: &[Expr], b: &[Expr]) -> bool
    ensures { result ≡ same_trees (trees (list.map view a.now)) (trees (list.map view b.now)) }
{
    if a.len() != b.len() {
        return false;
    }
    for at in 0..a.len() {
        if !is_same(&a[at], &b[at]) {
            return false;
        }
    }
    true
}

#[cycle(same)]
#[tactic(auto, using(crate::proofs::Compared::other_entries))]
fn are_same_entries(a: &[(Expr, Expr)], b: &[(Expr, Expr)]) -> bool
    ensures { result ≡ same_entries (entries (list.map (λ e. (view e.0, view e.1)) a.now)) (entries (list.map (λ e. (view e.0, view e.1)) b.now)) }
{
    if a.len() != b.len() {
        return false;
    }
    for at in 0..a.len() {
        let (key, value) = &a[at];
        let (other_key, other_value) = &b[at];
        if !is_same(key, other_key) {
            return false;
        }
        if !is_same(value, other_value) {
            return false;
        }
    }
    true
}

/// Whether two expressions are the same.
#[cycle(same)]
pub(crate) fn is_same(a: &Expr, b: &Expr) -> bool
    ensures { result ≡ same_tree (view a.now) (view b.now) }
{
    match (a, b) {
        (Expr::Literal(x), Expr::Literal(y)) => same_literal(x, y),
        (Expr::Name(x), Expr::Name(y)) => same_text(x.as_str(), y.as_str()),
        (Expr::Select(x, f), Expr::Select(y, g)) => {
            is_same(x, y) && same_text(f.as_str(), g.as_str())
        }
        (Expr::Index(x, k), Expr::Index(y, l)) => is_same(x, y) && is_same(k, l),
        (Expr::Call(f, x), Expr::Call(g, y)) => {
            same_text(f.as_str(), g.as_str()) && are_same(x.as_slice(), y.as_slice())
        }
        (Expr::Method(x, f, s), Expr::Method(y, g, t)) => {
            is_same(x, y)
                && same_text(f.as_str(), g.as_str())
                && are_same(s.as_slice(), t.as_slice())
        }
        (Expr::Unary(f, x), Expr::Unary(g, y)) => {
            same_text(prefix_text(*f), prefix_text(*g)) && is_same(x, y)
        }
        (Expr::Binary(f, x, s), Expr::Binary(g, y, t)) => {
            same_text(operator_text(*f), operator_text(*g)) && is_same(x, y) && is_same(s, t)
        }
        (Expr::Ternary(c, x, s), Expr::Ternary(d, y, t)) => {
            is_same(c, d) && is_same(x, y) && is_same(s, t)
        }
        (Expr::List(x), Expr::List(y)) => are_same(x.as_slice(), y.as_slice()),
        (Expr::Map(x), Expr::Map(y)) => are_same_entries(x.as_slice(), y.as_slice()),
        _ => false,
    }
}
