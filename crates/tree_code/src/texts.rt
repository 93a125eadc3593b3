//! The texts that the code of an expression uses; and a check that its literals are values.

ghost use Rattle.std.specs.Int.{w64};
ghost use Rattle.std.specs.Prelude.{◌≡◌, ◌++◌, ◌∷◌, [], FitsSigned, OnOk, string_bytes};
ghost use Rattle.std.specs.Prelude as list;
ghost use Rattle.cel_macros.specs.CoreTree.{plain_tree, plain_trees, plain_entries};
ghost use Rattle.cel_macros.specs.CoreView.{core_view, cores, core_entries};
ghost use Rattle.cel_macros.specs.Expanding.{core_pair};
ghost use Rattle.cel_reader.specs.Tree.{literal_view};
ghost use Rattle.cel_reader.specs.WellFormed.{IsWellFormedLiteral};
ghost use Rattle.tree_code.specs.Code.Expressions.{literal_texts, texts_of, texts_of_each, texts_of_entries};
ghost use Rattle.tree_code.specs.HasLiterals.{HasLiterals, HaveLiterals, EntriesHaveLiterals};

use cel_macros::Core;
use cel_reader::Literal;
use std::alloc::{AllocError, Global};

/// Appends a text.
fn add(alloc: Global, text: &str, texts: &mut Vec<String>) -> Result<(), AllocError>
    ensures { OnOk result (list.map string_bytes texts.new.items ≡ list.map string_bytes texts.old.items ++ text.now ∷ []) }
{
    let text = String::from_str(alloc, text)?;
    texts.push(text)?;
    Ok(())
}

/// An int fits 64 bits signed.
fn int_fits(n: i64)
    ensures { FitsSigned w64 n }
{
    let _ = n;
}

/// Appends the text of a literal, if it is a text. By their types, an int fits 64 bits signed and a
/// text is UTF-8.
#[tactic(auto, using(crate::proofs::Behind::texts_fit))]
fn add_literal(alloc: Global, literal: &Literal, texts: &mut Vec<String>) -> Result<(), AllocError>
    ensures texts { OnOk result (list.map string_bytes texts.new.items ≡ list.map string_bytes texts.old.items ++ literal_texts (literal_view literal.now)) }
    ensures literals { IsWellFormedLiteral (literal_view literal.now) }
{
    match literal {
        Literal::Text(text) => add(alloc, text.as_str(), texts)?,
        Literal::Int(n) => int_fits(*n),
        Literal::Bool(_) | Literal::Null => {}
    }
    Ok(())
}

/// Appends the texts of these expressions. Their literals are values.
#[cycle(texts)]
#[tactic(auto, unfolding(crate::specs::Code::Expressions::texts_of, cel_macros::specs::CoreTree::plain_tree))]
fn add_parts(alloc: Global, parts: &[Core], texts: &mut Vec<String>) -> Result<(), AllocError>
    ensures texts { OnOk result (list.map string_bytes texts.new.items ≡ list.map string_bytes texts.old.items ++ texts_of_each (cores (list.map core_view parts.now))) }
    ensures literals { OnOk result (HaveLiterals (plain_trees (cores (list.map core_view parts.now)))) }
{
    for part in parts {
        add_texts(alloc, part, texts)?;
    }
    Ok(())
}

/// Appends the texts of these keys and values. Their literals are values.
#[cycle(texts)]
#[tactic(auto, unfolding(crate::specs::Code::Expressions::texts_of, cel_macros::specs::CoreTree::plain_tree))]
fn add_entries(
    alloc: Global,
    pairs: &[(Core, Core)],
    texts: &mut Vec<String>,
) -> Result<(), AllocError>
    ensures texts { OnOk result (list.map string_bytes texts.new.items ≡ list.map string_bytes texts.old.items ++ texts_of_entries (core_entries (list.map core_pair pairs.now))) }
    ensures literals { OnOk result (EntriesHaveLiterals (plain_entries (core_entries (list.map core_pair pairs.now)))) }
{
    for (key, value) in pairs {
        add_texts(alloc, key, texts)?;
        add_texts(alloc, value, texts)?;
    }
    Ok(())
}

/// Appends the texts that the code of the expression uses, in order of first use. The expression's
/// literals are values.
#[cycle(texts)]
#[tactic(auto, unfolding(crate::specs::Code::Expressions::texts_of, cel_macros::specs::CoreTree::plain_tree))]
pub(crate) fn add_texts(
    alloc: Global,
    core: &Core,
    texts: &mut Vec<String>,
) -> Result<(), AllocError>
    ensures texts { OnOk result (list.map string_bytes texts.new.items ≡ list.map string_bytes texts.old.items ++ texts_of (core_view core.now)) }
    ensures literals { OnOk result (HasLiterals (plain_tree (core_view core.now))) }
{
    match core {
        Core::Literal(literal) => add_literal(alloc, literal, texts),
        Core::Name(_) | Core::Variable(_) => Ok(()),
        Core::Select(of, field) | Core::Has(of, field) => {
            add_texts(alloc, of, texts)?;
            add(alloc, field.as_str(), texts)
        }
        Core::Unary(_, of) => add_texts(alloc, of, texts),
        Core::Index(a, b) | Core::Binary(_, a, b) | Core::Fold(_, _, a, b) => {
            add_texts(alloc, a, texts)?;
            add_texts(alloc, b, texts)
        }
        Core::Call(_, arguments) => add_parts(alloc, arguments.as_slice(), texts),
        Core::Method(of, _, arguments) => {
            add_texts(alloc, of, texts)?;
            add_parts(alloc, arguments.as_slice(), texts)
        }
        Core::Ternary(a, b, c) | Core::FoldMap(_, a, b, c) => {
            add_texts(alloc, a, texts)?;
            add_texts(alloc, b, texts)?;
            add_texts(alloc, c, texts)
        }
        Core::List(items) => add_parts(alloc, items.as_slice(), texts),
        Core::Map(pairs) => add_entries(alloc, pairs.as_slice(), texts),
    }
}
