//! Validations.

ghost use Rattle.std.specs.Prelude.{◌≡◌, IfOk, map, option_map, string_bytes};
ghost use Rattle.policy_glue.specs.Policy.{validation_view};
ghost use Rattle.wide_policy.specs.Returns.{HasAddedPair, LeavesOut, ReturnsMessage, ReturnsValidation, ReturnsValidations};

use crate::expression::part_at;
use crate::left_out::LeftOut;
use crate::message_rule::MessageRule;
use crate::part_scope::PartScope;
use crate::taken_lists::TakenLists;
use crate::taken_message::TakenMessage;
use crate::taken_pair::TakenPair;
use crate::wide_policy_error::WidePolicyError;
use policy_glue::{PartKind, Validation};
use std::alloc::{AllocError, Global};

/// The validations, which may use the variables of the scope.
pub(crate) fn validations(
    alloc: Global,
    validations: &[Validation],
    scope: &PartScope,
    rule: MessageRule,
) -> Result<TakenLists, WidePolicyError>
    ensures { ReturnsValidations rule scope.now (map validation_view validations.now) result }
{
    let mut taken = TakenLists {
        source: Vec::new(alloc),
        profile: Vec::new(alloc),
        left_out: Vec::new(alloc),
    };
    for (place, validation) in validations.iter().enumerate() {
        let pair = validation_at(alloc, place, validation, scope, rule)?;
        add(&mut taken, place, pair)?;
    }
    Ok(taken)
}

/// Adds the validation at this place.
fn add(taken: &mut TakenLists, place: usize, pair: TakenPair) -> Result<(), AllocError>
    ensures { IfOk result (λ _. HasAddedPair taken.old taken.new place pair) }
{
    let TakenPair {
        source,
        profile,
        refusal,
    } = pair;
    taken.source.push(source)?;
    taken.profile.push(profile)?;
    if let Some(cause) = refusal {
        let note = LeftOut {
            validation: place,
            cause,
        };
        taken.left_out.push(note)?;
    }
    Ok(())
}

/// The validation at this place.
fn validation_at(
    alloc: Global,
    place: usize,
    validation: &Validation,
    scope: &PartScope,
    rule: MessageRule,
) -> Result<TakenPair, WidePolicyError>
    ensures { ReturnsValidation rule place scope.now (validation_view validation.now) result }
{
    let text = validation.expression.as_str();
    let (_, expression) = part_at(alloc, PartKind::Validation, place, text, scope)?;
    let message = message_at(alloc, place, &validation.message_expression, scope, rule)?;
    let TakenMessage {
        source,
        profile,
        refusal,
    } = message;
    let own = String::from_str(alloc, text)?;
    let source = with_texts(alloc, validation, own, source)?;
    let profile = with_texts(alloc, validation, expression, profile)?;
    Ok(TakenPair {
        source,
        profile,
        refusal,
    })
}

/// A validation with the message and the reason of another, and with these texts.
fn with_texts(
    alloc: Global,
    validation: &Validation,
    expression: String,
    message_expression: Option<String>,
) -> Result<Validation, AllocError>
    ensures { IfOk result (λ v. validation_view v ≡ record (validation_view validation.now) { expression = string_bytes expression; message_expression = option_map string_bytes message_expression }) }
{
    Ok(Validation {
        expression,
        message: String::from_str(alloc, validation.message.as_str())?,
        reason: validation.reason,
        message_expression,
    })
}

/// The message expression of the validation at this place, if it has one.
fn message_at(
    alloc: Global,
    place: usize,
    text: &Option<String>,
    scope: &PartScope,
    rule: MessageRule,
) -> Result<TakenMessage, WidePolicyError>
    ensures { ReturnsMessage rule place scope.now (option_map string_bytes text.now) result }
{
    match text {
        Some(text) => some_message(alloc, place, text.as_str(), scope, rule),
        None => Ok(TakenMessage {
            source: None,
            profile: None,
            refusal: None,
        }),
    }
}

/// The message expression of the validation at this place.
fn some_message(
    alloc: Global,
    place: usize,
    text: &str,
    scope: &PartScope,
    rule: MessageRule,
) -> Result<TakenMessage, WidePolicyError>
    ensures { ReturnsMessage rule place scope.now (Some text.now) result }
{
    match part_at(alloc, PartKind::Message, place, text, scope) {
        Ok((_, profile)) => Ok(TakenMessage {
            source: Some(String::from_str(alloc, text)?),
            profile: Some(profile),
            refusal: None,
        }),
        Err(error) => left_out(error, rule),
    }
}

/// A message expression that is refused is left out, if the rule says so.
fn left_out(error: WidePolicyError, rule: MessageRule) -> Result<TakenMessage, WidePolicyError>
    ensures { LeavesOut rule error result }
{
    match rule {
        MessageRule::Required => Err(error),
        MessageRule::LeftOut => match error {
            WidePolicyError::InvalidExpression(_, _, cause) => Ok(TakenMessage {
                source: None,
                profile: None,
                refusal: Some(cause),
            }),
            other => Err(other),
        },
    }
}
