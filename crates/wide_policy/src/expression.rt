//! Single expressions.

ghost use Rattle.std.specs.Prelude.{◌≡◌};
ghost use Rattle.wide_policy.specs.Returns.{ReturnsExpression, ReturnsPart, ReturnsTranslation};
ghost use Rattle.wide_policy.specs.Taking.{fits, scope_for};
ghost use Rattle.wide_reader.specs.Tree.{view};
ghost use Rattle.wide_translation.specs.Declarations.{IsTranslation};
ghost use Rattle.wide_translation.specs.Translated.{translated};

use crate::depth::is_too_deep;
use crate::expression_error::WideExpressionError;
use crate::part_scope::PartScope;
use crate::wide_policy_error::WidePolicyError;
use policy_glue::PartKind;
use std::alloc::Global;
use wide_kinds::Kind;
use wide_reader::Wide;
use wide_translation::{Translated, TranslationError, translate, translate_condition};

/// The translation of a part's expression, which may use the variables of the scope unless it is a condition.
fn translated(
    alloc: Global,
    part: PartKind,
    wide: &Wide,
    scope: &PartScope,
) -> Result<Translated, TranslationError>
    ensures { IsTranslation (translated (scope_for part scope.now) (view wide.now)) result }
{
    match part {
        PartKind::Condition => translate_condition(alloc, wide, scope.is_wrapped()),
        _ => translate(alloc, wide, scope.variables(), scope.is_wrapped()),
    }
}

/// Reads the text and translates the part's expression, unless it is too deep: a translation recurses over the tree.
fn translation(
    alloc: Global,
    part: PartKind,
    text: &str,
    scope: &PartScope,
) -> Result<Translated, WideExpressionError>
    ensures { ReturnsTranslation part scope.now text.now result }
{
    let wide = wide_reader::read(alloc, text)?;
    if is_too_deep(&wide) {
        return Err(WideExpressionError::TooDeep);
    }
    Ok(translated(alloc, part, &wide, scope)?)
}

/// Whether the expression of this part may be of this kind.
fn fits(part: PartKind, kind: Kind) -> bool
    ensures { result ≡ fits part kind }
{
    match part {
        PartKind::Variable => true,
        _ => matches!(kind, Kind::Value(_)),
    }
}

/// The text of the translation of a part's expression, and the kind of its value.
fn expression(
    alloc: Global,
    part: PartKind,
    text: &str,
    scope: &PartScope,
) -> Result<(Kind, String), WideExpressionError>
    ensures { ReturnsExpression part scope.now text.now result }
{
    let translated = translation(alloc, part, text, scope)?;
    if fits(part, translated.kind) {
        let text = cel_writer::write(alloc, &translated.expression)?;
        return Ok((translated.kind, text));
    }
    Err(WideExpressionError::OptionalResult)
}

/// As `expression`, for the part at this place of its list.
pub(crate) fn part_at(
    alloc: Global,
    part: PartKind,
    place: usize,
    text: &str,
    scope: &PartScope,
) -> Result<(Kind, String), WidePolicyError>
    ensures { ReturnsPart part place scope.now text.now result }
{
    match expression(alloc, part, text, scope) {
        Ok(taken) => Ok(taken),
        Err(error) => Err(error.at(part, place)),
    }
}
