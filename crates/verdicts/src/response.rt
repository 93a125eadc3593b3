//! Responses to reviews.

ghost use Rattle.std.specs.Prelude.{◌≡◌, ◌++◌, decimal, option_map, string_bytes, IfOk, None, Some};
ghost use Rattle.json.specs.Print.{quoted};
ghost use Rattle.verdicts.specs.Verdict as decided;
ghost use Rattle.verdicts.specs.Words.{words_view, Encodes};
ghost use Rattle.verdicts.specs.Rejections.{rejection_view, response_text};
ghost use Rattle.verdicts.specs.Response.{response_of};
ghost use Rattle.verdicts.specs.ResponseTokens.{start_text};

use crate::escaping::quoted_after;
use crate::policy::Policy;
use crate::rejecting::rejection_of;
use crate::rejection::Rejection;
use crate::verdict::Verdict;
use json::Writer;
use std::alloc::{AllocError, Global};

/// The room that a response without a long message takes.
const ROOM: usize = 256;

/// A message of this length or more is quoted in its own buffer, so that it is not there twice.
const LONG: usize = 1 << 16;

/// The text of the response to a verdict of the policy, for the request with this uid
/// (AdmissionReview, `admission.k8s.io/v1`).
#[tactic(auto, using(crate::proofs::Told::responded))]
pub fn respond(
    alloc: Global,
    policy: &Policy,
    verdict: &Verdict,
    uid: &str,
) -> Result<Vec<u8>, AllocError>
    ensures { (v : decided.Verdict) → Encodes policy.now.failure_policy v (words_view verdict.now) → IfOk result (λ bytes. bytes.items ≡ response_of policy.now v uid.now) }
{
    let said = rejection_of(alloc, policy, verdict)?;
    into_response_text(alloc, said, uid)
}

/// The text of the response to the request with this uid: it denies the request if there is a
/// rejection, else it allows it (AdmissionReview, `admission.k8s.io/v1`).
pub fn response_text(
    alloc: Global,
    said: &Option<Rejection>,
    uid: &str,
) -> Result<Vec<u8>, AllocError>
    ensures { IfOk result (λ bytes. bytes.items ≡ response_text (option_map rejection_view said.now) uid.now) }
{
    match said {
        Some(rejection) => denied_text(alloc, rejection.copy()?, uid),
        None => allowed_text(alloc, uid),
    }
}

/// `response_text` for a rejection that is not needed afterwards: a long message is not copied.
pub fn into_response_text(
    alloc: Global,
    said: Option<Rejection>,
    uid: &str,
) -> Result<Vec<u8>, AllocError>
    ensures { IfOk result (λ bytes. bytes.items ≡ response_text (option_map rejection_view said) uid.now) }
{
    match said {
        Some(rejection) => denied_text(alloc, rejection, uid),
        None => allowed_text(alloc, uid),
    }
}

/// The text of the response that allows the request.
#[tactic(auto, using(crate::proofs::ResponseTexts::allowed_written))]
fn allowed_text(alloc: Global, uid: &str) -> Result<Vec<u8>, AllocError>
    ensures { IfOk result (λ bytes. bytes.items ≡ response_text None uid.now) }
{
    let mut text = start(alloc)?;
    text.extend_from_slice(b"true,\"uid\":")?;
    let mut text = with_text(text, uid)?;
    text.extend_from_slice(b"}}")?;
    Ok(text)
}

/// The text of the response that denies the request.
fn denied_text(alloc: Global, rejection: Rejection, uid: &str) -> Result<Vec<u8>, AllocError>
    ensures { IfOk result (λ bytes. bytes.items ≡ response_text (Some (rejection_view rejection)) uid.now) }
{
    let Rejection { message, reason } = rejection;
    let mut text = start(alloc)?;
    text.extend_from_slice(b"false,\"status\":{\"code\":")?;
    let mut text = with_number(text, reason.code())?;
    text.extend_from_slice(b",\"message\":")?;
    let mut text = with_message(text, message)?;
    text.extend_from_slice(b",\"reason\":")?;
    let mut text = with_text(text, reason.name())?;
    text.extend_from_slice(b"},\"uid\":")?;
    let mut text = with_text(text, uid)?;
    text.extend_from_slice(b"}}")?;
    Ok(text)
}

/// The start of a response, up to whether it allows the request.
fn start(alloc: Global) -> Result<Vec<u8>, AllocError>
    ensures { IfOk result (λ text. text.items ≡ start_text) }
{
    let mut text = Vec::with_capacity(alloc, ROOM)?;
    text.extend_from_slice(b"{\"apiVersion\":\"admission.k8s.io/v1\",")?;
    text.extend_from_slice(b"\"kind\":\"AdmissionReview\",\"response\":{\"allowed\":")?;
    Ok(text)
}

/// Appends a message in JSON.
fn with_message(bytes: Vec<u8>, message: String) -> Result<Vec<u8>, AllocError>
    ensures { IfOk result (λ more. more.items ≡ bytes.items ++ quoted (string_bytes message)) }
{
    if message.len() < LONG {
        with_text(bytes, message.as_str())
    } else {
        quoted_after(bytes, message.into_bytes())
    }
}

/// Appends a text in JSON.
fn with_text(bytes: Vec<u8>, text: &str) -> Result<Vec<u8>, AllocError>
    ensures { IfOk result (λ more. more.items ≡ bytes.items ++ quoted text.now) }
{
    let mut writer = Writer::new(bytes);
    writer.string(text)?;
    Ok(writer.into_inner())
}

/// Appends a number in decimal.
fn with_number(bytes: Vec<u8>, n: u64) -> Result<Vec<u8>, AllocError>
    ensures { IfOk result (λ more. more.items ≡ bytes.items ++ decimal n) }
{
    let mut writer = Writer::new(bytes);
    writer.u64(n)?;
    Ok(writer.into_inner())
}
