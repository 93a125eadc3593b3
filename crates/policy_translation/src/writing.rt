//! The text of a policy's translation.
ghost use Rattle.std.specs.Prelude.{◌≡◌, ◌∷◌, [], map, string_bytes, IfOk, OnOk};
ghost use Rattle.policy_glue.specs.Policy.{named_view, policy_view, validation_view};
ghost use Rattle.policy_translation.specs.TranslationText.{author_texts, metadata_of, named_texts, part_key, text_member, translation_data, translation_text, validation_texts, validations_texts};
ghost use Rattle.policy_translation.specs.TranslationTokens.{AddsData, AddsMembers};

use crate::members::write_text;
use crate::policy_json::write_spec;
use itoa::Buffer;
use json::Writer;
use policy_glue::{NamedExpression, PartKind, Parts, Validation};
use std::alloc::{AllocError, Global};
use wide_policy::WidePolicy;

/// The policy of the translations as JSON, with the texts of the author, and a line feed.
pub fn translation_text(alloc: Global, policy: WidePolicy) -> Result<Vec<u8>, AllocError>
    ensures { IfOk result (λ t. t.items ≡ translation_text policy.source policy.profile) }
{
    let WidePolicy {
        source,
        profile,
        ..
    } = policy;
    let source = source.into_parts();
    let profile = profile.into_parts();
    let mut writer = Writer::new(Vec::new(alloc));
    write_policy(alloc, &mut writer, &source, &profile)?;
    let mut text = writer.into_inner();
    text.extend_from_slice(b"\n")?;
    Ok(text)
}

fn write_policy(
    alloc: Global,
    writer: &mut Writer,
    source: &Parts,
    profile: &Parts,
) -> Result<(), AllocError>
    ensures { OnOk result (AddsData writer.old writer.new (translation_data (policy_view source.now) (policy_view profile.now))) }
{
    writer.begin_object()?;
    write_text(writer, "apiVersion", "admissionregistration.k8s.io/v1")?;
    write_text(writer, "kind", "ValidatingAdmissionPolicy")?;
    writer.key("metadata")?;
    write_metadata(alloc, writer, source)?;
    writer.key("spec")?;
    write_spec(writer, profile)?;
    writer.end_object()
}

/// Writes the texts of the author as annotations.
fn write_metadata(alloc: Global, writer: &mut Writer, source: &Parts) -> Result<(), AllocError>
    ensures { OnOk result (AddsData writer.old writer.new (metadata_of (policy_view source.now))) }
{
    writer.begin_object()?;
    writer.key("annotations")?;
    writer.begin_object()?;
    write_author_texts(alloc, writer, source)?;
    writer.end_object()?;
    writer.end_object()
}

fn write_author_texts(alloc: Global, writer: &mut Writer, source: &Parts) -> Result<(), AllocError>
    ensures { OnOk result (AddsMembers writer.old writer.new (author_texts (policy_view source.now))) }
{
    let variables = source.variables.as_slice();
    let conditions = source.conditions.as_slice();
    write_named_texts(alloc, writer, PartKind::Variable, variables)?;
    write_named_texts(alloc, writer, PartKind::Condition, conditions)?;
    write_validations_texts(alloc, writer, source.validations.as_slice())
}

/// Writes the texts of variables or conditions.
fn write_named_texts(
    alloc: Global,
    writer: &mut Writer,
    part: PartKind,
    named: &[NamedExpression],
) -> Result<(), AllocError>
    ensures { OnOk result (AddsMembers writer.old writer.new (named_texts part 0 (map named_view named.now))) }
{
    for (place, item) in named.iter().enumerate() {
        write_part(alloc, writer, part, place, item.expression.as_str())?;
    }
    Ok(())
}

/// Writes the texts of validations and of their message expressions.
fn write_validations_texts(
    alloc: Global,
    writer: &mut Writer,
    validations: &[Validation],
) -> Result<(), AllocError>
    ensures { OnOk result (AddsMembers writer.old writer.new (validations_texts 0 (map validation_view validations.now))) }
{
    for (place, validation) in validations.iter().enumerate() {
        write_validation_texts(alloc, writer, place, validation)?;
    }
    Ok(())
}

/// Writes the texts of a validation and of its message expression.
fn write_validation_texts(
    alloc: Global,
    writer: &mut Writer,
    place: usize,
    validation: &Validation,
) -> Result<(), AllocError>
    ensures { OnOk result (AddsMembers writer.old writer.new (validation_texts place (validation_view validation.now))) }
{
    let text = validation.expression.as_str();
    write_part(alloc, writer, PartKind::Validation, place, text)?;
    match &validation.message_expression {
        Some(text) => write_part(alloc, writer, PartKind::Message, place, text.as_str()),
        None => Ok(()),
    }
}

/// Writes the text of the part of this kind at this place.
fn write_part(
    alloc: Global,
    writer: &mut Writer,
    part: PartKind,
    place: usize,
    text: &str,
) -> Result<(), AllocError>
    ensures { OnOk result (AddsMembers writer.old writer.new (text_member (part_key part place) text.now ∷ [])) }
{
    let key = part_key(alloc, part, place)?;
    write_text(writer, key.as_str(), text)
}

/// The key of the part of this kind at this place.
#[tactic(auto, using(crate::proofs::TranslationTexts::pieces))]
fn part_key(alloc: Global, part: PartKind, place: usize) -> Result<String, AllocError>
    ensures { IfOk result (λ k. string_bytes k ≡ part_key part place) }
{
    [part.word(), ".", Buffer::new().format(place)].concat(alloc)
}
