//! The trees that carry the value of a wide expression.

ghost use Rattle.std.specs.Prelude.{◌≡◌, MatchOption};
ghost use Rattle.cel_reader.specs.Tree.{Tree, view};
ghost use Rattle.wide_kinds.specs.declared.kind.ValueKind.{ValueKind as KindOf};
ghost use Rattle.wide_translation.specs.Carried as specs;
ghost use Rattle.wide_translation.specs.Declarations.{carried_view};
ghost use Rattle.wide_translation.specs.Parts.{from_list, on_plain};

use cel_reader::Expr;
use wide_kinds::ValueKind;

/// What carries the value of a wide expression.
#[derive(Debug, Drop)]
pub(crate) enum Carried {
    /// A tree that means the value.
    Plain(ValueKind, Expr),
    /// A guard that tells whether there is a value, and the value, which is the error if there is none.
    Guarded(ValueKind, Expr, Expr),
    /// A tree that means the list of the value, or the empty list.
    Listed(ValueKind, Expr),
}

/// The kind and the tree of a value.
pub(crate) fn value_of(of: Carried) -> Option<(ValueKind, Expr)>
    ensures { MatchOption result ((f : KindOf → Tree → specs.Translation) → on_plain (carried_view of) f ≡ specs.refused specs.OptionalValue) (λ p. carried_view of ≡ specs.plain p.0 (view p.1)) }
{
    match of {
        Carried::Plain(kind, tree) => Some((kind, tree)),
        Carried::Guarded(_, guard, value) => {
            drop(guard);
            drop(value);
            None
        }
        Carried::Listed(_, list) => {
            drop(list);
            None
        }
    }
}

/// The kind of the value and the tree of an optional value that is carried by a list.
pub(crate) fn list_of(of: Carried) -> Option<(ValueKind, Expr)>
    ensures { MatchOption result ((e : specs.WideFault) (f : KindOf → Tree → specs.Translation) → from_list e (carried_view of) f ≡ specs.refused e) (λ p. carried_view of ≡ specs.listed p.0 (view p.1)) }
{
    match of {
        Carried::Plain(_, tree) => {
            drop(tree);
            None
        }
        Carried::Guarded(_, guard, value) => {
            drop(guard);
            drop(value);
            None
        }
        Carried::Listed(kind, list) => Some((kind, list)),
    }
}
