//! Indices.

ghost use Rattle.std.specs.Prelude.{◌≡◌, ℕ, IfOk, MatchOption, None, pos};
ghost use Rattle.cel_reader.specs.Tree as node;
ghost use Rattle.cel_reader.specs.Tree.{view};
ghost use Rattle.wide_kinds.specs.declared.kind.ValueKind.TheVariants as kinds;
ghost use Rattle.wide_reader.specs.Tree as wide;
ghost use Rattle.wide_translation.specs.Carried.{OptionalValue, plain, refused, taken};
ghost use Rattle.wide_translation.specs.ComputedIndices.{key_carried};
ghost use Rattle.wide_translation.specs.Declarations.{ReturnsCarried, carried_view};
ghost use Rattle.wide_translation.specs.Forms as forms;
ghost use Rattle.wide_translation.specs.Keys as keys;
ghost use Rattle.wide_translation.specs.Keys.{IsNoLiteralKey};
ghost use Rattle.wide_translation.specs.Parts.{on_plain};
ghost use Rattle.wide_translation.specs.Translated as specs;

use crate::carried::{Carried, value_of};
use crate::names::HELD;
use crate::translation_error::TranslationError;
use crate::{build, built, computed_indices, fields, presence, together};
use cel_reader::{Expr, Literal};
use std::alloc::{AllocError, Global};
use wide_kinds::ValueKind;
use wide_reader::{Access, Wide};

/// The trees of an operand and an index that are both values.
fn operands(of: Carried, key: Carried) -> Option<(Expr, Expr)>
    ensures { let t = specs.value_index (carried_view of) (carried_view key) in MatchOption result (t ≡ refused OptionalValue) (λ p. t ≡ taken (plain kinds.Dyn (node.index (view p.0) (view p.1)))) }
{
    let Some((_, first)) = value_of(of) else {
        drop(key);
        return None;
    };
    let Some((_, second)) = value_of(key) else {
        drop(first);
        return None;
    };
    Some((first, second))
}

/// An index of a value, without a question mark.
fn value_index(alloc: Global, of: Carried, key: Carried) -> Result<Carried, TranslationError>
    ensures { ReturnsCarried (specs.value_index (carried_view of) (carried_view key)) result }
{
    let Some((first, second)) = operands(of, key) else {
        return Err(TranslationError::OptionalValue);
    };
    let tree = build::index(alloc, first, second)?;
    Ok(Carried::Plain(ValueKind::Dyn, tree))
}

/// An index as an optional value.
fn optional_index(alloc: Global, of: Carried, key: Carried) -> Result<Carried, TranslationError>
    ensures { ReturnsCarried (on_plain (carried_view key) (λ j b. taken (key_carried (carried_view of) j b))) result }
{
    let Some((kind, at)) = value_of(key) else {
        drop(of);
        return Err(TranslationError::OptionalValue);
    };
    Ok(computed_indices::key(alloc, of, kind, at)?)
}

/// Whether an index without a question mark is that of a value.
fn is_index_of_value(access: Access, of: &Carried) -> bool
    ensures { result ≡ keys.is_index_of_value access (carried_view of.now) }
{
    match access {
        Access::Plain => matches!(of, Carried::Plain(_, _)),
        Access::Optional => false,
    }
}

/// An index: a value, or an optional value.
#[tactic(auto, using(crate::proofs::IndexForms::index_of_value, crate::proofs::IndexForms::index_of_key))]
fn plain_index(
    alloc: Global,
    access: Access,
    of: Carried,
    key: Carried,
) -> Result<Carried, TranslationError>
    ensures { ReturnsCarried (specs.plain_index access (carried_view of) (carried_view key)) result }
{
    if is_index_of_value(access, &of) {
        return value_index(alloc, of, key);
    }
    optional_index(alloc, of, key)
}

/// An index that is a field.
fn field_index(
    alloc: Global,
    access: Access,
    text: &str,
    of: Carried,
) -> Result<Carried, TranslationError>
    ensures { ReturnsCarried (taken (specs.field_carried access text.now (carried_view of))) result }
{
    Ok(fields::field(alloc, access, text, of)?)
}

/// An index by a text literal: a field, but for an index without a question mark of a value.
#[tactic(auto, using(crate::proofs::IndexForms::text_index_of_value, crate::proofs::IndexForms::text_index_of_field))]
fn text_index(
    alloc: Global,
    access: Access,
    text: &str,
    of: Carried,
    key: Carried,
) -> Result<Carried, TranslationError>
    ensures { ReturnsCarried (specs.text_index text.now access (carried_view of) (carried_view key)) result }
{
    if is_index_of_value(access, &of) {
        return plain_index(alloc, access, of, key);
    }
    drop(key);
    field_index(alloc, access, text, of)
}

/// The optional item of a value.
fn optional_item(
    alloc: Global,
    kind: ValueKind,
    of: Expr,
    position: i64,
) -> Result<Carried, AllocError>
    ensures { IfOk result (λ c. (n : ℕ) → position ≡ pos n → carried_view c ≡ specs.optional_item (forms.is_simple (view of)) kind (view of) n) }
{
    if build::is_simple(&of) {
        let guard = presence::present_item_of(alloc, kind, &of, position);
        let (guard, value) = together::both(guard, presence::item(alloc, of, position))?;
        return Ok(Carried::Guarded(ValueKind::Dyn, guard, value));
    }
    let list = built::bound(alloc, Ok(of), presence::item_list(alloc, position));
    Ok(Carried::Listed(ValueKind::Dyn, list?))
}

/// The item of the value of an optional value.
fn item_of_list(alloc: Global, list: Expr, position: i64) -> Result<Carried, AllocError>
    ensures { IfOk result (λ c. (n : ℕ) → position ≡ pos n → carried_view c ≡ specs.item_of_list (view list) n) }
{
    let items = built::flat(alloc, HELD, Ok(list), presence::item_list(alloc, position));
    Ok(Carried::Listed(ValueKind::Dyn, items?))
}

/// The item of the value of an optional value with a guard.
fn item_of_guarded(
    alloc: Global,
    guard: Expr,
    value: Expr,
    position: i64,
) -> Result<Carried, AllocError>
    ensures { IfOk result (λ c. (n : ℕ) → position ≡ pos n → carried_view c ≡ specs.item_of_list (forms.guarded_tree (view guard) (view value)) n) }
{
    let list = build::guarded(alloc, guard, value)?;
    item_of_list(alloc, list, position)
}

/// The optional item of an operand.
fn item(alloc: Global, of: Carried, position: i64) -> Result<Carried, AllocError>
    ensures { IfOk result (λ c. (n : ℕ) → position ≡ pos n → carried_view c ≡ specs.item_carried n (carried_view of)) }
{
    match of {
        Carried::Plain(kind, tree) => optional_item(alloc, kind, tree, position),
        Carried::Guarded(_, guard, value) => item_of_guarded(alloc, guard, value, position),
        Carried::Listed(_, list) => item_of_list(alloc, list, position),
    }
}

/// An index that is an item.
fn item_index(alloc: Global, of: Carried, position: i64) -> Result<Carried, TranslationError>
    ensures { (n : ℕ) → position ≡ pos n → ReturnsCarried (taken (specs.item_carried n (carried_view of))) result }
{
    Ok(item(alloc, of, position)?)
}

/// An index by an int literal of at least 0: an item, but for an index without a question mark of a value.
#[tactic(auto, using(crate::proofs::IndexForms::count_index_of_value, crate::proofs::IndexForms::count_index_of_item))]
fn count_index(
    alloc: Global,
    access: Access,
    position: i64,
    of: Carried,
    key: Carried,
) -> Result<Carried, TranslationError>
    ensures { (n : ℕ) → position ≡ pos n → ReturnsCarried (specs.count_index n access (carried_view of) (carried_view key)) result }
{
    if is_index_of_value(access, &of) {
        return plain_index(alloc, access, of, key);
    }
    drop(key);
    item_index(alloc, of, position)
}

/// An index by an int literal.
#[tactic(auto, using(crate::proofs::Arms::counted))]
fn int_index(
    alloc: Global,
    access: Access,
    n: i64,
    of: Carried,
    key: Carried,
) -> Result<Carried, TranslationError>
    ensures { ReturnsCarried (specs.index_carried None (specs.count_literal (wide.literal (node.int n))) access (carried_view of) (carried_view key)) result }
{
    if n < 0 {
        plain_index(alloc, access, of, key)
    } else {
        count_index(alloc, access, n, of, key)
    }
}

/// An index by a literal.
fn literal_index(
    alloc: Global,
    access: Access,
    literal: &Literal,
    of: Carried,
    key: Carried,
) -> Result<Carried, TranslationError>
    ensures { let e = wide.literal (node.literal_view literal.now) in ReturnsCarried (specs.index_carried (specs.text_literal e) (specs.count_literal e) access (carried_view of) (carried_view key)) result }
{
    match literal {
        Literal::Text(text) => text_index(alloc, access, text.as_str(), of, key),
        Literal::Int(n) => int_index(alloc, access, *n, of, key),
        Literal::Bool(_) => plain_index(alloc, access, of, key),
        Literal::Null => plain_index(alloc, access, of, key),
    }
}

/// The literal that an expression is, if it is one.
fn literal_of(e: &Wide) -> Option<&Literal>
    ensures { MatchOption result (IsNoLiteralKey (wide.view e.now)) (λ l. wide.view e.now ≡ wide.literal (node.literal_view l.now)) }
{
    match e {
        Wide::Literal(literal) => Some(literal),
        _ => None,
    }
}

/// An index. The index, as an expression, is the second argument.
pub(crate) fn index(
    alloc: Global,
    index: &Wide,
    access: Access,
    of: Carried,
    key: Carried,
) -> Result<Carried, TranslationError>
    ensures { ReturnsCarried (specs.index_carried (specs.text_literal (wide.view index.now)) (specs.count_literal (wide.view index.now)) access (carried_view of) (carried_view key)) result }
{
    match literal_of(index) {
        Some(literal) => literal_index(alloc, access, literal, of, key),
        None => plain_index(alloc, access, of, key),
    }
}
