//! Translations.

ghost use Rattle.std.specs.Prelude.{IfOk};
ghost use Rattle.cel_reader.specs.Tree as node;
ghost use Rattle.wide_reader.specs.Tree as wide;
ghost use Rattle.wide_translation.specs.Declarations.{IsTranslation, carried_view};
ghost use Rattle.wide_translation.specs.Results.{WideMeans};
ghost use Rattle.wide_translation.specs.Scope.{condition_scope, scope_of};
ghost use Rattle.wide_translation.specs.Translated.{IsFinished, translated};

use crate::build;
use crate::carried::Carried;
use crate::names::Names;
use crate::scope::Scope;
use crate::translating::translation;
use crate::translation_error::TranslationError;
use cel_reader::Expr;
use std::alloc::{AllocError, Global};
use wide_kinds::Kind;
use wide_reader::Wide;

/// A translation: an expression that is compiled, and the kind of its value. An optional value is the list of its
/// value, or the empty list.
#[derive(Debug, Drop)]
pub struct Translated {
    pub kind: Kind,
    pub expression: Expr,
}

/// An optional value as a list; a value as it is.
fn finished(alloc: Global, of: Carried) -> Result<Translated, AllocError>
    ensures { IfOk result (λ t. IsFinished (carried_view of) t.kind (node.view t.expression)) }
{
    match of {
        Carried::Plain(kind, tree) => Ok(Translated {
            kind: Kind::Value(kind),
            expression: tree,
        }),
        Carried::Guarded(kind, guard, value) => Ok(Translated {
            kind: Kind::Optional(kind),
            expression: build::guarded(alloc, guard, value)?,
        }),
        Carried::Listed(kind, list) => Ok(Translated {
            kind: Kind::Optional(kind),
            expression: list,
        }),
    }
}

/// The translation of an expression into one that means the same. `wrapped` tells whether the root `params` has the
/// parameters as the field `v`, beside tables.
///
/// # Errors
///
/// The fault of the first part, from left to right, that is not translated: `UnknownName` for a name, a function or a
/// method that has no meaning here, `OptionalValue` for an optional value where a value is needed and the other way
/// round, `TakenName` for an iteration name that the translation needs, `UnsignedInt` for an unsigned int that is no
/// operand of a comparison or takes more than 63 bits, `NeedsIndices` for a macro with two names that uses the indices of
/// a list without a table of them, `OptionalEntry` for an optional entry whose key is no text literal and for more than
/// three of them in a map. `Memory` if an allocation fails.
#[tactic(auto, using(crate::proofs::Finished::finished_means))]
pub fn translate(
    alloc: Global,
    e: &Wide,
    scope: &Scope,
    wrapped: bool,
) -> Result<Translated, TranslationError>
    ensures exact { IsTranslation (translated (scope_of wrapped scope.now) (wide.view e.now)) result }
    ensures means { IfOk result (λ t. WideMeans (scope_of wrapped scope.now) (wide.view e.now) t.kind (node.view t.expression)) }
{
    let names = Names::Outside(scope.variables(), wrapped);
    let carried = translation(alloc, e, &names)?;
    Ok(finished(alloc, carried)?)
}

/// The translation of a match condition, as that of `translate`. It may use no variable, and `namespaceObject` is null.
///
/// # Errors
///
/// Those of `translate`.
#[tactic(auto, using(crate::proofs::Finished::finished_means))]
pub fn translate_condition(
    alloc: Global,
    e: &Wide,
    wrapped: bool,
) -> Result<Translated, TranslationError>
    ensures exact { IsTranslation (translated (condition_scope wrapped) (wide.view e.now)) result }
    ensures means { IfOk result (λ t. WideMeans (condition_scope wrapped) (wide.view e.now) t.kind (node.view t.expression)) }
{
    let names = Names::Condition(wrapped);
    let carried = translation(alloc, e, &names)?;
    Ok(finished(alloc, carried)?)
}
