//! The `spec` of a policy as JSON.
ghost use Rattle.std.specs.Prelude.{◌≡◌, ◌∷◌, [], map, option_map, string_bytes, OnOk};
ghost use Rattle.policy_glue.specs.Policy.{named_view, policy_view, validation_view};
ghost use Rattle.policy_translation.specs.TranslationText.{array_in, failure_name, message_member, named_data, named_list, object_in, option_member, spec_members, validation_data, validations_member};
ghost use Rattle.policy_translation.specs.TranslationTokens.{AddsData, AddsMembers};

use crate::members::write_text;
use json::Writer;
use policy_glue::{FailurePolicy, NamedExpression, Parts, Validation};
use std::alloc::AllocError;

/// Writes the specification of a policy.
pub fn write_spec(writer: &mut Writer, policy: &Parts) -> Result<(), AllocError>
    ensures { OnOk result (AddsData writer.old writer.new (object_in (spec_members (policy_view policy.now)))) }
{
    writer.begin_object()?;
    write_text(writer, "failurePolicy", failure_name(policy.failure_policy))?;
    write_named_list(writer, "variables", policy.variables.as_slice())?;
    write_named_list(writer, "matchConditions", policy.conditions.as_slice())?;
    write_validations(writer, policy.validations.as_slice())?;
    writer.end_object()
}

/// The name of a failure policy.
fn failure_name(policy: FailurePolicy) -> &'static str
    ensures { result.now ≡ failure_name policy }
{
    match policy {
        FailurePolicy::Fail => "Fail",
        FailurePolicy::Ignore => "Ignore",
    }
}

/// Writes a list of variables or conditions, unless it is empty.
fn write_named_list(
    writer: &mut Writer,
    key: &str,
    named: &[NamedExpression],
) -> Result<(), AllocError>
    ensures { OnOk result (AddsMembers writer.old writer.new (named_list key.now (map named_view named.now))) }
{
    if named.is_empty() {
        return Ok(());
    }
    writer.key(key)?;
    write_named_items(writer, named)
}

/// Writes an array of variables or conditions.
fn write_named_items(writer: &mut Writer, named: &[NamedExpression]) -> Result<(), AllocError>
    ensures { OnOk result (AddsData writer.old writer.new (array_in (map named_data (map named_view named.now)))) }
{
    writer.begin_array()?;
    for item in named {
        write_named(writer, item)?;
    }
    writer.end_array()
}

/// Writes a variable or a condition.
fn write_named(writer: &mut Writer, named: &NamedExpression) -> Result<(), AllocError>
    ensures { OnOk result (AddsData writer.old writer.new (named_data (named_view named.now))) }
{
    writer.begin_object()?;
    write_text(writer, "name", named.name.as_str())?;
    write_text(writer, "expression", named.expression.as_str())?;
    writer.end_object()
}

/// Writes the list of validations.
fn write_validations(writer: &mut Writer, validations: &[Validation]) -> Result<(), AllocError>
    ensures { OnOk result (AddsMembers writer.old writer.new (validations_member (map validation_view validations.now) ∷ [])) }
{
    writer.key("validations")?;
    write_validation_items(writer, validations)
}

/// Writes an array of validations.
fn write_validation_items(writer: &mut Writer, validations: &[Validation]) -> Result<(), AllocError>
    ensures { OnOk result (AddsData writer.old writer.new (array_in (map validation_data (map validation_view validations.now)))) }
{
    writer.begin_array()?;
    for validation in validations {
        write_validation(writer, validation)?;
    }
    writer.end_array()
}

fn write_validation(writer: &mut Writer, validation: &Validation) -> Result<(), AllocError>
    ensures { OnOk result (AddsData writer.old writer.new (validation_data (validation_view validation.now))) }
{
    writer.begin_object()?;
    write_text(writer, "expression", validation.expression.as_str())?;
    write_message(writer, validation.message.as_str())?;
    write_option(writer, "messageExpression", &validation.message_expression)?;
    write_text(writer, "reason", validation.reason.name())?;
    writer.end_object()
}

/// Writes the message of a validation, if it is set.
fn write_message(writer: &mut Writer, message: &str) -> Result<(), AllocError>
    ensures { OnOk result (AddsMembers writer.old writer.new (message_member message.now)) }
{
    if message.is_empty() {
        return Ok(());
    }
    write_text(writer, "message", message)
}

/// Writes a member with this text, if there is one.
fn write_option(writer: &mut Writer, key: &str, text: &Option<String>) -> Result<(), AllocError>
    ensures { OnOk result (AddsMembers writer.old writer.new (option_member key.now (option_map string_bytes text.now))) }
{
    match text {
        Some(text) => write_text(writer, key, text.as_str()),
        None => Ok(()),
    }
}
