//! The texts of refusals.
ghost use Rattle.std.specs.Prelude.{◌≡◌, option_map, IfOk, OnOk, Some};
ghost use Rattle.policy_glue.specs.Documents.{document_of};
ghost use Rattle.policy_glue.specs.ResponseTokens.{AddsTokens};
ghost use Rattle.admission.specs.ErrorCodes.{run_error_code};
ghost use Rattle.gatekeeper_runner.specs.Refusals.{refusal_text, too_long_text, uid_shown, label_tokens, refusal_tokens, uid_tokens, label_view, refused_view};

use crate::policy_label::PolicyLabel;
use crate::refused::Refused;
use admission::RunError;
use json::Writer;
use policy_translation::write_text;
use review_tables::text_at;
use std::alloc::{AllocError, Global};

/// The room in bytes that a refusal without long names takes.
const ROOM: usize = 128;

/// The refusal of the review in a line, with the uid of its request if the line has one. The line
/// need not be a review; nothing but the uid is kept of it.
pub fn line_refusal_text(
    alloc: Global,
    refused: &Refused,
    line: &[u8],
) -> Result<Vec<u8>, AllocError>
    ensures { IfOk result (λ text. text.items ≡ refusal_text (refused_view refused.now) (uid_shown (document_of line.now))) }
{
    let uid = text_at(alloc, line, "request", "uid")?;
    refusal_text(alloc, refused, uid.as_deref())
}

/// The text of the refusal of a line that is too long.
pub fn too_long_text(alloc: Global) -> Result<Vec<u8>, AllocError>
    ensures { IfOk result (λ text. text.items ≡ too_long_text) }
{
    let refused = Refused {
        error: RunError::ReviewRefused,
        policy: None,
    };
    refusal_text(alloc, &refused, None)
}

/// The text of a refusal.
pub fn refusal_text(
    alloc: Global,
    refused: &Refused,
    uid: Option<&str>,
) -> Result<Vec<u8>, AllocError>
    ensures { IfOk result (λ text. text.items ≡ refusal_text (refused_view refused.now) (option_map (λ s. s.now) uid.entry)) }
{
    let mut writer = Writer::new(Vec::with_capacity(alloc, ROOM)?);
    write_refusal(&mut writer, refused, uid)?;
    Ok(writer.into_inner())
}

fn write_refusal(
    writer: &mut Writer,
    refused: &Refused,
    uid: Option<&str>,
) -> Result<(), AllocError>
    ensures { OnOk result (AddsTokens writer.old writer.new (refusal_tokens (run_error_code refused.now.error) (option_map (λ s. s.now) uid.entry) (option_map label_view refused.now.policy))) }
{
    writer.begin_object()?;
    write_text(writer, "refused", refused.error.code())?;
    write_uid(writer, uid)?;
    write_label(writer, &refused.policy)?;
    writer.end_object()
}

fn write_uid(writer: &mut Writer, uid: Option<&str>) -> Result<(), AllocError>
    ensures { OnOk result (AddsTokens writer.old writer.new (uid_tokens (option_map (λ s. s.now) uid.entry))) }
{
    match uid {
        Some(uid) => write_text(writer, "uid", uid),
        None => Ok(()),
    }
}

fn write_label(writer: &mut Writer, label: &Option<PolicyLabel>) -> Result<(), AllocError>
    ensures { OnOk result (AddsTokens writer.old writer.new (label_tokens (option_map label_view label.now))) }
{
    match label {
        Some(label) => write_policy(writer, label),
        None => Ok(()),
    }
}

fn write_policy(writer: &mut Writer, label: &PolicyLabel) -> Result<(), AllocError>
    ensures { OnOk result (AddsTokens writer.old writer.new (label_tokens (Some (label_view label.now)))) }
{
    write_text(writer, "policy", label.name.as_str())?;
    write_text(writer, "failurePolicy", label.failure_policy.as_str())
}
