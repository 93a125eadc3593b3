//! Values as texts, texts as bools, and optional values of values that are not zero.

ghost use Rattle.std.specs.Prelude.{◌≡◌, [], ◌∷◌, ◌++◌, IfOk, codes, map, true, false};
ghost use Rattle.cel_reader.specs.Tree as node;
ghost use Rattle.cel_reader.specs.Tree.{view};
ghost use Rattle.wide_meaning.specs.Functions.{false_texts, true_texts};
ghost use Rattle.wide_translation.specs.Built.{FormOf, FormOfTwo};
ghost use Rattle.wide_translation.specs.Forms as forms;
ghost use Rattle.wide_translation.specs.Translated as specs;

use crate::build;
use crate::built::{self, Built};
use crate::copying::copy;
use cel_reader::{BinaryOperator, Expr, Literal};
use std::alloc::{AllocError, Global};
use wide_kinds::ValueKind;

/// Whether an expression is equal to a bool.
fn is_bool(alloc: Global, of: &Expr, value: bool) -> Built
    ensures { IfOk result (λ e. view e ≡ forms.is_bool_tree (view of.now) value) }
{
    let literal = Expr::Literal(Literal::Bool(value));
    built::binary(alloc, BinaryOperator::Equal, copy(alloc, of), Ok(literal))
}

/// The text `false` if an expression is false, else the text of an int or of a text.
fn false_or_text(alloc: Global, of: Expr) -> Built
    ensures { IfOk result (λ e. view e ≡ node.ternary (forms.is_bool_tree (view of) false) (node.literal (node.text (codes "false"))) (forms.call_tree (codes "string") (view of))) }
{
    let is_false = is_bool(alloc, &of, false);
    let no = build::text(alloc, "false");
    built::ternary(alloc, is_false, no, build::call(alloc, "string", of))
}

/// A value of any kind as a text.
fn any_text(alloc: Global, of: Expr) -> Built
    ensures { IfOk result (λ e. view e ≡ forms.text_tree (view of)) }
{
    let is_true = is_bool(alloc, &of, true);
    let yes = build::text(alloc, "true");
    built::ternary(alloc, is_true, yes, false_or_text(alloc, of))
}

/// The value that the translation's name denotes as a text.
fn held_text(alloc: Global) -> Built
    ensures { IfOk result (λ e. view e ≡ forms.text_tree forms.held) }
{
    let held = build::held(alloc)?;
    any_text(alloc, held)
}

/// A value of any kind as a text, with the value written once.
fn once_text(alloc: Global, of: Expr) -> Built
    ensures { IfOk result (λ e. view e ≡ specs.once (view of) forms.text_tree) }
{
    if build::is_simple(&of) {
        return any_text(alloc, of);
    }
    built::bound(alloc, Ok(of), held_text(alloc))
}

/// A value of a kind as a text.
pub(crate) fn string(alloc: Global, kind: ValueKind, of: Expr) -> Built
    ensures { IfOk result (λ e. view e ≡ specs.string_tree kind (view of)) }
{
    match kind {
        ValueKind::Int | ValueKind::String => build::call(alloc, "string", of),
        ValueKind::Bool => {
            let yes = build::text(alloc, "true");
            built::ternary(alloc, Ok(of), yes, build::text(alloc, "false"))
        }
        _ => once_text(alloc, of),
    }
}

/// Expressions with one more, a text literal.
fn with_text(alloc: Global, items: Vec<Expr>, text: &str) -> Result<Vec<Expr>, AllocError>
    ensures { IfOk result (λ v. map view v.items ≡ map view items.items ++ node.literal (node.text text.now) ∷ []) }
{
    let item = build::text(alloc, text)?;
    build::more(items, item)
}

/// The texts that denote true.
fn true_list(alloc: Global) -> Built
    ensures { IfOk result (λ e. view e ≡ node.list (forms.text_trees true_texts)) }
{
    let one = with_text(alloc, Vec::new(alloc), "1")?;
    let two = with_text(alloc, one, "t")?;
    let three = with_text(alloc, two, "T")?;
    let four = with_text(alloc, three, "true")?;
    let five = with_text(alloc, four, "TRUE")?;
    let six = with_text(alloc, five, "True")?;
    Ok(build::list(six))
}

/// The texts that denote false.
fn false_list(alloc: Global) -> Built
    ensures { IfOk result (λ e. view e ≡ node.list (forms.text_trees false_texts)) }
{
    let one = with_text(alloc, Vec::new(alloc), "0")?;
    let two = with_text(alloc, one, "f")?;
    let three = with_text(alloc, two, "F")?;
    let four = with_text(alloc, three, "false")?;
    let five = with_text(alloc, four, "FALSE")?;
    let six = with_text(alloc, five, "False")?;
    Ok(build::list(six))
}

/// Whether an expression is an item of a list.
fn is_among(alloc: Global, of: &Expr, list: Built) -> Built
    ensures { FormOf (node.binary forms.membership (view of.now)) list result }
{
    built::binary(alloc, BinaryOperator::In, copy(alloc, of), list)
}

/// Whether an expression is a text that denotes true.
fn is_true_text(alloc: Global, of: &Expr) -> Built
    ensures { IfOk result (λ e. view e ≡ node.binary forms.membership (view of.now) (node.list (forms.text_trees true_texts))) }
{
    is_among(alloc, of, true_list(alloc))
}

/// Whether an expression is a text that denotes false.
fn is_false_text(alloc: Global, of: &Expr) -> Built
    ensures { IfOk result (λ e. view e ≡ node.binary forms.membership (view of.now) (node.list (forms.text_trees false_texts))) }
{
    is_among(alloc, of, false_list(alloc))
}

/// The choice between true, false and the error.
fn chosen_bool(alloc: Global, is_true: Built, is_false: Built) -> Built
    ensures { FormOfTwo (λ yes no. node.ternary yes (node.literal (node.truth true)) (node.ternary no (node.literal (node.truth false)) forms.error_tree)) is_true is_false result }
{
    let error = build::first(alloc, build::empty(alloc));
    let no = Expr::Literal(Literal::Bool(false));
    let other = built::ternary(alloc, is_false, Ok(no), error);
    let yes = Expr::Literal(Literal::Bool(true));
    built::ternary(alloc, is_true, Ok(yes), other)
}

/// The bool that a text denotes.
fn text_bool(alloc: Global, of: &Expr) -> Built
    ensures { IfOk result (λ e. view e ≡ forms.text_bool_tree (view of.now)) }
{
    chosen_bool(alloc, is_true_text(alloc, of), is_false_text(alloc, of))
}

/// Whether an expression is true, or a text that denotes it.
fn denotes_true(alloc: Global, of: &Expr) -> Built
    ensures { IfOk result (λ e. view e ≡ forms.denotes_tree (view of.now) true true_texts) }
{
    let is_true = is_bool(alloc, of, true);
    let is_text = is_true_text(alloc, of);
    built::binary(alloc, BinaryOperator::Or, is_true, is_text)
}

/// Whether an expression is false, or a text that denotes it.
fn denotes_false(alloc: Global, of: &Expr) -> Built
    ensures { IfOk result (λ e. view e ≡ forms.denotes_tree (view of.now) false false_texts) }
{
    let is_false = is_bool(alloc, of, false);
    let is_text = is_false_text(alloc, of);
    built::binary(alloc, BinaryOperator::Or, is_false, is_text)
}

/// The bool that a value or a text denotes.
fn any_bool(alloc: Global, of: &Expr) -> Built
    ensures { IfOk result (λ e. view e ≡ forms.bool_tree (view of.now)) }
{
    chosen_bool(alloc, denotes_true(alloc, of), denotes_false(alloc, of))
}

/// The bool that the text denotes that the translation's name denotes.
fn held_text_bool(alloc: Global) -> Built
    ensures { IfOk result (λ e. view e ≡ forms.text_bool_tree forms.held) }
{
    let held = build::held(alloc)?;
    let denoted = text_bool(alloc, &held);
    drop(held);
    denoted
}

/// The bool that a text denotes, with the text written once.
fn once_text_bool(alloc: Global, of: Expr) -> Built
    ensures { IfOk result (λ e. view e ≡ specs.once (view of) forms.text_bool_tree) }
{
    if build::is_simple(&of) {
        let denoted = text_bool(alloc, &of);
        drop(of);
        return denoted;
    }
    built::bound(alloc, Ok(of), held_text_bool(alloc))
}

/// The bool that the value denotes that the translation's name denotes.
fn held_bool(alloc: Global) -> Built
    ensures { IfOk result (λ e. view e ≡ forms.bool_tree forms.held) }
{
    let held = build::held(alloc)?;
    let denoted = any_bool(alloc, &held);
    drop(held);
    denoted
}

/// The bool that a value of any kind denotes, with the value written once.
fn once_any_bool(alloc: Global, of: Expr) -> Built
    ensures { IfOk result (λ e. view e ≡ specs.once (view of) forms.bool_tree) }
{
    if build::is_simple(&of) {
        let denoted = any_bool(alloc, &of);
        drop(of);
        return denoted;
    }
    built::bound(alloc, Ok(of), held_bool(alloc))
}

/// The bool that a value of a kind denotes.
pub(crate) fn bool_of(alloc: Global, kind: ValueKind, of: Expr) -> Built
    ensures { IfOk result (λ e. view e ≡ specs.bool_of_kind kind (view of)) }
{
    match kind {
        ValueKind::String => once_text_bool(alloc, of),
        _ => once_any_bool(alloc, of),
    }
}

/// The list of the values that are null, false, 0 or empty.
fn zero_list(alloc: Global) -> Built
    ensures { IfOk result (λ e. view e ≡ node.list forms.zero_trees) }
{
    let one = build::more(Vec::new(alloc), Expr::Literal(Literal::Null))?;
    let two = build::more(one, Expr::Literal(Literal::Bool(false)))?;
    let three = build::more(two, Expr::Literal(Literal::Int(0)))?;
    let four = with_text(alloc, three, "")?;
    let five = build::more(four, build::empty(alloc))?;
    let six = build::more(five, build::map(Vec::new(alloc)))?;
    Ok(build::list(six))
}

/// Whether an expression is null, false, 0 or empty.
fn is_zero(alloc: Global, of: &Expr) -> Built
    ensures { IfOk result (λ e. view e ≡ node.binary forms.membership (view of.now) (node.list forms.zero_trees)) }
{
    is_among(alloc, of, zero_list(alloc))
}

/// The list of a value, or the empty list if it is null, false, 0 or empty.
fn any_non_zero(alloc: Global, of: Expr) -> Built
    ensures { IfOk result (λ e. view e ≡ forms.non_zero_tree (view of)) }
{
    let zero = is_zero(alloc, &of);
    let list = build::one(alloc, of);
    built::ternary(alloc, zero, Ok(build::empty(alloc)), list)
}

/// The same of the value that the translation's name denotes.
fn held_non_zero(alloc: Global) -> Built
    ensures { IfOk result (λ e. view e ≡ forms.non_zero_tree forms.held) }
{
    let held = build::held(alloc)?;
    any_non_zero(alloc, held)
}

/// The same, with the value written once.
pub(crate) fn non_zero(alloc: Global, of: Expr) -> Built
    ensures { IfOk result (λ e. view e ≡ specs.once (view of) forms.non_zero_tree) }
{
    if build::is_simple(&of) {
        return any_non_zero(alloc, of);
    }
    built::bound(alloc, Ok(of), held_non_zero(alloc))
}
