//! Phrases of parts that were read. What the last part is refused for is passed on.

ghost use Rattle.std.specs.Prelude.{◌≡◌, ◌<◌, ◌∷◌, [], ◌++◌, ℕ, List, length, false, IfOk, option_map, string_bytes};
ghost use Rattle.std.specs.Prelude as list;
ghost use Rattle.cel_tokens.specs.Token.{Word};
ghost use Rattle.cel_reader.specs.Tree as node;
ghost use Rattle.cel_reader.specs.Tree.{Tree, view, entry_view, trees};
ghost use Rattle.cel_reader.specs.Grammar.{One};
ghost use Rattle.cel_reader.specs.Look.{words};
ghost use Rattle.cel_reader.specs.Prefixes.{wrapped};
ghost use Rattle.cel_reader.specs.Reading.{IsPhraseOf, PhraseLeads, ReturnsOutcome, StepReads, PlanRuns, Kind, Step, Plan, Got, whole, before, with_arguments};

use crate::build;
use crate::expr::Expr;
use crate::look::after;
use crate::operator::{BinaryOperator, UnaryOperator};
use crate::refusal::{Refusal, misfit};
use cel_tokens::{Mark, Token};
use std::alloc::Global;

/// What was read, and the tokens after it.
pub type Read<'a, T = Expr> = Result<(T, &'a [Token]), Refusal>;

/// A name, and its arguments if it is called.
pub type Named = (String, Option<Vec<Expr>>);

/// What was read, up to the mark behind it.
pub fn up_to<'a>(text: &'a [u8], mark: Mark, read: Read<'a>) -> Read<'a>
    ensures reads { (k : Kind) (s : Step false whole) (f : Tree → Plan false k) (room : ℕ) (ws : List Word)
        → ReturnsOutcome (λ x. Got (One (view x.0)) (words text.now x.1.now)) read.entry (StepReads s room ws)
        → PhraseLeads result (λ x o. PlanRuns (f (view x.0)) room (words text.now x.1.now) o) (PlanRuns (before s mark f) room ws) }
    ensures shorter { (n : ℕ) → IfOk read.entry (λ x. length x.1.now < n) → IfOk result (λ x. length x.1.now < n) }
{
    match read {
        Ok((tree, end)) => match after(text, end, mark) {
            Some(rest) => Ok((tree, rest)),
            None => Err(misfit(end)),
        },
        Err(refusal) => Err(refusal),
    }
}

/// A part and the one that was read after it.
pub fn pair<'a, A: Drop, B: Drop>(first: A, second: Read<'a, B>) -> Read<'a, (A, B)>
    ensures { IsPhraseOf second.entry result (λ x y. (y.0.0 ≡ first) × (y.0.1 ≡ x.0) × (y.1.now ≡ x.1.now)) }
{
    let (second, end) = second?;
    Ok(((first, second), end))
}

/// The items and one more.
pub fn pushed<'a, T: Drop>(items: Vec<T>, item: Read<'a, T>) -> Read<'a, Vec<T>>
    ensures { IsPhraseOf item.entry result (λ x y. (y.0.items ≡ items.items ++ x.0 ∷ []) × (y.1.now ≡ x.1.now)) }
{
    let ((mut items, item), end) = pair(items, item)?;
    items.push(item)?;
    Ok((items, end))
}

/// A conditional.
pub fn ternary<'a>(alloc: Global, condition: Expr, branches: Read<'a, (Expr, Expr)>) -> Read<'a>
    ensures { IsPhraseOf branches.entry result (λ x y. (view y.0 ≡ node.ternary (view condition) (view x.0.0) (view x.0.1)) × (y.1.now ≡ x.1.now)) }
{
    let ((condition, (yes, no)), end) = pair(condition, branches)?;
    Ok((build::ternary(alloc, condition, yes, no)?, end))
}

/// An operator between operands.
pub fn binary<'a>(alloc: Global, operator: BinaryOperator, left: Expr, right: Read<'a>) -> Read<'a>
    ensures { IsPhraseOf right.entry result (λ x y. (view y.0 ≡ node.binary operator (view left) (view x.0)) × (y.1.now ≡ x.1.now)) }
{
    let ((left, right), end) = pair(left, right)?;
    Ok((build::binary(alloc, operator, left, right)?, end))
}

/// An operator and `count` more of it before an operand.
pub fn unary<'a>(
    alloc: Global,
    operator: UnaryOperator,
    count: usize,
    operand: Read<'a>,
) -> Read<'a>
    ensures { IsPhraseOf operand.entry result (λ x y. (view y.0 ≡ node.unary operator (wrapped operator count (view x.0))) × (y.1.now ≡ x.1.now)) }
{
    let (operand, end) = operand?;
    let inner = build::prefixed(alloc, operator, count, operand)?;
    Ok((build::unary(alloc, operator, inner)?, end))
}

/// An item or entry of an expression.
pub fn index<'a>(alloc: Global, of: Expr, at: Read<'a>) -> Read<'a>
    ensures { IsPhraseOf at.entry result (λ x y. (view y.0 ≡ node.index (view of) (view x.0)) × (y.1.now ≡ x.1.now)) }
{
    let ((of, at), end) = pair(of, at)?;
    Ok((build::index(alloc, of, at)?, end))
}

/// A field of an expression, or a call of a method if there are arguments.
pub fn selection<'a>(alloc: Global, of: Expr, named: Read<'a, Named>) -> Read<'a>
    ensures { IsPhraseOf named.entry result (λ x y. (view y.0 ≡ with_arguments (node.select (view of) (string_bytes x.0.0)) (λ items. node.method (view of) (string_bytes x.0.0) (trees items)) (option_map (λ v. list.map view v.items) x.0.1)) × (y.1.now ≡ x.1.now)) }
{
    let ((of, (name, arguments)), end) = pair(of, named)?;
    let selected = match arguments {
        Some(arguments) => build::method(alloc, of, name, arguments)?,
        None => build::select(alloc, of, name)?,
    };
    Ok((selected, end))
}

/// A name, or a call of a function if there are arguments.
pub fn call<'a>(name: String, arguments: Read<'a, Option<Vec<Expr>>>) -> Read<'a>
    ensures { IsPhraseOf arguments.entry result (λ x y. (view y.0 ≡ with_arguments (node.name (string_bytes name)) (λ items. node.call (string_bytes name) (trees items)) (option_map (λ v. list.map view v.items) x.0)) × (y.1.now ≡ x.1.now)) }
{
    let ((name, arguments), end) = pair(name, arguments)?;
    let named = match arguments {
        Some(arguments) => build::call(name, arguments),
        None => build::name(name),
    };
    Ok((named, end))
}

/// A list literal.
pub fn list<'a>(items: Read<'a, Vec<Expr>>) -> Read<'a>
    ensures { IsPhraseOf items.entry result (λ x y. (view y.0 ≡ node.list (trees (list.map view x.0.items))) × (y.1.now ≡ x.1.now)) }
{
    let (items, end) = items?;
    Ok((build::list(items), end))
}

/// A map literal.
pub fn map<'a>(entries: Read<'a, Vec<(Expr, Expr)>>) -> Read<'a>
    ensures { IsPhraseOf entries.entry result (λ x y. (view y.0 ≡ node.map (node.entries (list.map entry_view x.0.items))) × (y.1.now ≡ x.1.now)) }
{
    let (entries, end) = entries?;
    Ok((build::map(entries), end))
}
