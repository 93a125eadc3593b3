//! Phrases of parts that were read. What the last part is refused for is passed on.

ghost use Rattle.std.specs.Prelude.{◌≡◌, ◌<◌, ◌∷◌, [], ◌++◌, ℕ, List, length, false, IfOk, option_map, string_bytes};
ghost use Rattle.std.specs.Prelude as list;
ghost use Rattle.wide_reader.specs.Tree as node;
ghost use Rattle.wide_reader.specs.Tree.{Wide as Tree, view, item_view, entry_view};
ghost use Rattle.wide_reader.specs.Grammar.{One, applied};
ghost use Rattle.wide_reader.specs.Forms.{method_of, call_of};
ghost use Rattle.wide_reader.specs.Look.{words};
ghost use Rattle.wide_reader.specs.Reading.{IsBuiltFrom, Leads, ReturnsWideOutcome, WideStepReads, WidePlanRuns, WideKind, WidePlan, WideReadStep, Got, whole, before, with_arguments};
ghost use Rattle.wide_tokens.specs.Token.{WideWord};

use crate::look::after;
use crate::refusal::{Refusal, misfit};
use crate::wide::{Access, Wide};
use crate::{build, forming};
use cel_reader::{BinaryOperator, UnaryOperator};
use cel_tokens::Mark;
use std::alloc::Global;
use wide_tokens::Token;

/// What was read, and the tokens after it.
pub type Read<'a, T = Wide> = Result<(T, &'a [Token]), Refusal>;

/// A name, and its arguments if it is called.
pub type Named = (String, Option<Vec<Wide>>);

/// What was read, up to the mark behind it.
pub fn up_to<'a>(text: &'a [u8], mark: Mark, read: Read<'a>) -> Read<'a>
    ensures reads { (k : WideKind) (s : WideReadStep false whole) (f : Tree → WidePlan false k) (room : ℕ) (ws : List WideWord)
        → ReturnsWideOutcome (λ x. Got (One (view x.0)) (words text.now x.1.now)) read.entry (WideStepReads s room ws)
        → Leads result (λ x o. WidePlanRuns (f (view x.0)) room (words text.now x.1.now) o) (WidePlanRuns (before s mark f) room ws) }
    ensures shorter { (n : ℕ) → IfOk read.entry (λ x. length x.1.now < n) → IfOk result (λ x. length x.1.now < n) }
{
    match read {
        Ok((tree, end)) => match after(text, end, mark) {
            Some(rest) => Ok((tree, rest)),
            None => {
                drop(tree);
                Err(misfit(end))
            }
        },
        Err(refusal) => {
            drop(read);
            Err(refusal)
        }
    }
}

/// A part and the one that was read after it.
pub fn pair<'a, A: Drop, B: Drop>(first: A, second: Read<'a, B>) -> Read<'a, (A, B)>
    ensures { IsBuiltFrom second.entry result (λ x y. (y.0.0 ≡ first) × (y.0.1 ≡ x.0) × (y.1.now ≡ x.1.now)) }
{
    let (second, end) = second?;
    Ok(((first, second), end))
}

/// An entry of a map literal.
pub fn entry<'a>(access: Access, key: Wide, value: Read<'a>) -> Read<'a, (Access, Wide, Wide)>
    ensures { IsBuiltFrom value.entry result (λ x y. (entry_view y.0 ≡ (access, view key, view x.0)) × (y.1.now ≡ x.1.now)) }
{
    let ((key, value), end) = pair(key, value)?;
    Ok(((access, key, value), end))
}

/// The items and one more.
pub fn pushed<'a, T: Drop>(items: Vec<T>, item: Read<'a, T>) -> Read<'a, Vec<T>>
    ensures { IsBuiltFrom item.entry result (λ x y. (y.0.items ≡ items.items ++ x.0 ∷ []) × (y.1.now ≡ x.1.now)) }
{
    let ((mut items, item), end) = pair(items, item)?;
    items.push(item)?;
    Ok((items, end))
}

/// A conditional.
pub fn ternary<'a>(alloc: Global, condition: Wide, branches: Read<'a, (Wide, Wide)>) -> Read<'a>
    ensures { IsBuiltFrom branches.entry result (λ x y. (view y.0 ≡ node.ternary (view condition) (view x.0.0) (view x.0.1)) × (y.1.now ≡ x.1.now)) }
{
    let ((condition, (yes, no)), end) = pair(condition, branches)?;
    Ok((build::ternary(alloc, condition, yes, no)?, end))
}

/// An operator between operands.
pub fn binary<'a>(alloc: Global, operator: BinaryOperator, left: Wide, right: Read<'a>) -> Read<'a>
    ensures { IsBuiltFrom right.entry result (λ x y. (view y.0 ≡ node.binary operator (view left) (view x.0)) × (y.1.now ≡ x.1.now)) }
{
    let ((left, right), end) = pair(left, right)?;
    Ok((build::binary(alloc, operator, left, right)?, end))
}

/// An operand after operators, of which an even number leaves no node.
pub fn applied<'a>(alloc: Global, operator: UnaryOperator, odd: bool, operand: Read<'a>) -> Read<'a>
    ensures { IsBuiltFrom operand.entry result (λ x y. (view y.0 ≡ applied operator odd (view x.0)) × (y.1.now ≡ x.1.now)) }
{
    let (operand, end) = operand?;
    Ok((build::applied(alloc, operator, odd, operand)?, end))
}

/// An item or entry of an expression.
pub fn index<'a>(alloc: Global, of: Wide, at: Read<'a, (Access, Wide)>) -> Read<'a>
    ensures { IsBuiltFrom at.entry result (λ x y. (view y.0 ≡ node.index (view of) x.0.0 (view x.0.1)) × (y.1.now ≡ x.1.now)) }
{
    let ((of, (access, at)), end) = pair(of, at)?;
    Ok((build::index(alloc, of, access, at)?, end))
}

/// A field of an expression, or a call of a method if there are arguments.
pub fn selection<'a>(alloc: Global, of: Wide, named: Read<'a, (Access, Named)>) -> Read<'a>
    ensures { IsBuiltFrom named.entry result (λ x y. (view y.0 ≡ with_arguments (node.select (view of) x.0.0 (string_bytes x.0.1.0)) (λ more. method_of (view of) (string_bytes x.0.1.0) (node.wides more)) (option_map (λ v. list.map view v.items) x.0.1.1)) × (y.1.now ≡ x.1.now)) }
{
    let ((of, (access, (name, arguments))), end) = pair(of, named)?;
    let selected = match arguments {
        Some(arguments) => forming::method(alloc, of, name, arguments)?,
        None => build::select(alloc, of, access, name)?,
    };
    Ok((selected, end))
}

/// A name, or a call of a function if there are arguments.
pub fn call<'a>(name: String, arguments: Read<'a, Option<Vec<Wide>>>) -> Read<'a>
    ensures { IsBuiltFrom arguments.entry result (λ x y. (view y.0 ≡ with_arguments (node.name (string_bytes name)) (λ more. call_of (string_bytes name) (node.wides more)) (option_map (λ v. list.map view v.items) x.0)) × (y.1.now ≡ x.1.now)) }
{
    let ((name, arguments), end) = pair(name, arguments)?;
    let named = match arguments {
        Some(arguments) => forming::call(name, arguments),
        None => build::name(name),
    };
    Ok((named, end))
}

/// A name with a dot before it, or a call of a function if there are arguments.
pub fn root<'a>(name: String, arguments: Read<'a, Option<Vec<Wide>>>) -> Read<'a>
    ensures { IsBuiltFrom arguments.entry result (λ x y. (view y.0 ≡ with_arguments (node.root (string_bytes name)) (λ more. call_of (string_bytes name) (node.wides more)) (option_map (λ v. list.map view v.items) x.0)) × (y.1.now ≡ x.1.now)) }
{
    let ((name, arguments), end) = pair(name, arguments)?;
    let named = match arguments {
        Some(arguments) => forming::call(name, arguments),
        None => build::root(name),
    };
    Ok((named, end))
}

/// A list literal.
pub fn list<'a>(items: Read<'a, Vec<(Access, Wide)>>) -> Read<'a>
    ensures { IsBuiltFrom items.entry result (λ x y. (view y.0 ≡ node.list (node.items (list.map item_view x.0.items))) × (y.1.now ≡ x.1.now)) }
{
    let (items, end) = items?;
    Ok((build::list(items), end))
}

/// A map literal.
pub fn map<'a>(entries: Read<'a, Vec<(Access, Wide, Wide)>>) -> Read<'a>
    ensures { IsBuiltFrom entries.entry result (λ x y. (view y.0 ≡ node.map (node.entries (list.map entry_view x.0.items))) × (y.1.now ≡ x.1.now)) }
{
    let (entries, end) = entries?;
    Ok((build::map(entries), end))
}
