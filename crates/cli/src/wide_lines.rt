//! The line of a policy in the wide language that is refused, which may name what the policy names.
ghost use Rattle.std.specs.Prelude.{◌≡◌, ◌++◌, codes, decimal, IfOk, OnOk};
ghost use Rattle.cli.specs.Refusals.{policy_text};
ghost use Rattle.cli.specs.WideTexts.{name_text, named_text, part_text, place_text, wide_cause_text, wide_line, wide_policy_text, wide_text};

use crate::lines::refusal_text;
use crate::refusal::Refusal;
use admission::{PolicyRefusal, WideRefusal};
use itoa::Buffer;
use policy_glue::PartKind;
use std::alloc::{AllocError, Global};
use wide_policy::{WideExpressionError, WidePolicyError};
use wide_translation::TranslationError;

/// The line of a policy in the wide language that gives no image.
pub fn wide_line(alloc: Global, refusal: &WideRefusal) -> Result<Vec<u8>, AllocError>
    ensures { IfOk result (λ l. l.items ≡ wide_line refusal.now) }
{
    let mut line = Vec::from_slice(alloc, b"celbpf: ")?;
    add_wide(alloc, &mut line, refusal)?;
    line.extend_from_slice(b"\n")?;
    Ok(line)
}

/// Adds why a policy in the language that is compiled gives no image.
pub fn add_policy(
    alloc: Global,
    line: &mut Vec<u8>,
    refusal: PolicyRefusal,
) -> Result<(), AllocError>
    ensures { OnOk result (line.new.items ≡ line.old.items ++ policy_text refusal) }
{
    let told = refusal_text(alloc, Refusal::Policy(refusal));
    line.extend_from_slice(told.as_slice())?;
    Ok(())
}

/// Adds why a policy in the wide language gives no image.
pub fn add_wide(alloc: Global, line: &mut Vec<u8>, refusal: &WideRefusal) -> Result<(), AllocError>
    ensures { OnOk result (line.new.items ≡ line.old.items ++ wide_text refusal.now) }
{
    match refusal {
        WideRefusal::Unread(error) => add_wide_policy(line, error),
        WideRefusal::Uncompiled(error) => {
            add_policy(alloc, line, PolicyRefusal::Uncompiled(*error))
        }
        WideRefusal::Memory => add_text(line, "memory"),
    }
}

/// Adds why a document is no policy in the wide language.
fn add_wide_policy(line: &mut Vec<u8>, error: &WidePolicyError) -> Result<(), AllocError>
    ensures { OnOk result (line.new.items ≡ line.old.items ++ wide_policy_text error.now) }
{
    match error {
        WidePolicyError::Unread(error) => add_text(line, error.code()),
        WidePolicyError::HasAuditAnnotations => add_text(line, "K3 auditAnnotations"),
        WidePolicyError::InvalidExpression(part, place, error) => {
            add_part(line, *part, *place)?;
            add_wide_cause(line, error)
        }
        WidePolicyError::Memory => add_text(line, "memory"),
    }
}

/// Adds the code of an expression that is refused, the kind of its part and the part's place.
fn add_part(line: &mut Vec<u8>, part: PartKind, place: usize) -> Result<(), AllocError>
    ensures { OnOk result (line.new.items ≡ line.old.items ++ part_text part place) }
{
    add_text(line, "K6 ")?;
    add_text(line, part.word())?;
    add_text(line, " ")?;
    add_number(line, place)?;
    add_text(line, " ")
}

/// Adds why an expression is refused.
pub fn add_wide_cause(line: &mut Vec<u8>, error: &WideExpressionError) -> Result<(), AllocError>
    ensures { OnOk result (line.new.items ≡ line.old.items ++ wide_cause_text error.now) }
{
    add_text(line, error.code())?;
    add_named(line, error)?;
    add_place(line, error.place())
}

/// Adds the name that an expression has no translation for, if there is one.
fn add_named(line: &mut Vec<u8>, error: &WideExpressionError) -> Result<(), AllocError>
    ensures { OnOk result (line.new.items ≡ line.old.items ++ named_text error.now) }
{
    match error {
        WideExpressionError::Untranslated(error) => add_name(line, error),
        _ => Ok(()),
    }
}

fn add_name(line: &mut Vec<u8>, error: &TranslationError) -> Result<(), AllocError>
    ensures { OnOk result (line.new.items ≡ line.old.items ++ name_text error.now) }
{
    match error {
        TranslationError::UnknownName(name) => add_spaced(line, name.as_str()),
        TranslationError::TakenName(name) => add_spaced(line, name.as_str()),
        _ => Ok(()),
    }
}

/// Adds a space and a name.
fn add_spaced(line: &mut Vec<u8>, name: &str) -> Result<(), AllocError>
    ensures { OnOk result (line.new.items ≡ line.old.items ++ (codes " " ++ name.now)) }
{
    add_text(line, " ")?;
    add_text(line, name)
}

/// Adds the byte at which an expression is refused, if it is known.
fn add_place(line: &mut Vec<u8>, place: Option<usize>) -> Result<(), AllocError>
    ensures { OnOk result (line.new.items ≡ line.old.items ++ place_text place) }
{
    match place {
        Some(place) => {
            add_text(line, " at ")?;
            add_number(line, place)
        }
        None => Ok(()),
    }
}

/// Adds a number.
pub fn add_number(line: &mut Vec<u8>, n: usize) -> Result<(), AllocError>
    ensures { OnOk result (line.new.items ≡ line.old.items ++ decimal n) }
{
    line.extend_from_slice(Buffer::new().format(n).as_bytes())?;
    Ok(())
}

/// Adds a text.
fn add_text(line: &mut Vec<u8>, text: &str) -> Result<(), AllocError>
    ensures { OnOk result (line.new.items ≡ line.old.items ++ text.now) }
{
    line.extend_from_slice(text.as_bytes())?;
    Ok(())
}
