//! What is said of a request that is not allowed.
ghost use Rattle.std.specs.Prelude.{◌≡◌, IfOk, option_map, string_bytes};
ghost use Rattle.admission_documents.specs.Requests.{request_view};
ghost use Rattle.cluster_response.specs.Events.{denial_view};
ghost use Rattle.cluster_response.specs.Messages.{denial_text, denied_message, forbidden_text, with_binding};

use crate::denial::Denial;
use crate::names::{shown_name, shown_resource};
use admission_documents::Request;
use cluster_plan::go_quoted;
use std::alloc::{AllocError, Global};

/// The message of a denial.
#[tactic(auto, unfolding(crate::specs::Messages::denied_message))]
pub(crate) fn denied_message(
    alloc: Global,
    request: &Request<'_>,
    denial: &Denial,
) -> Result<String, AllocError>
    ensures { IfOk result (λ t. string_bytes t ≡ denied_message (request_view request.now) (denial_view denial.now)) }
{
    let mut message = forbidden_text(alloc, request)?;
    let reason = denial_text(alloc, denial)?;
    message.push_str(reason.as_str())?;
    Ok(message)
}

/// What is forbidden.
#[tactic(auto, unfolding(crate::specs::Messages::forbidden_text))]
fn forbidden_text(alloc: Global, request: &Request<'_>) -> Result<String, AllocError>
    ensures { IfOk result (λ t. string_bytes t ≡ forbidden_text (request_view request.now)) }
{
    let resource = shown_resource(alloc, &request.attributes.resource)?;
    let name = go_quoted(alloc, shown_name(request))?;
    [resource.as_str(), " ", name.as_str(), " is forbidden: "].concat(alloc)
}

/// By what it is forbidden, and why.
#[tactic(auto, unfolding(crate::specs::Messages::denial_text))]
fn denial_text(alloc: Global, denial: &Denial) -> Result<String, AllocError>
    ensures { IfOk result (λ t. string_bytes t ≡ denial_text (denial_view denial.now)) }
{
    let binding = with_binding(alloc, &denial.binding)?;
    [
        "ValidatingAdmissionPolicy '",
        denial.policy.as_str(),
        "'",
        binding.as_str(),
        " denied request: ",
        denial.message.as_str(),
    ]
    .concat(alloc)
}

fn with_binding(alloc: Global, binding: &Option<String>) -> Result<String, AllocError>
    ensures { IfOk result (λ t. string_bytes t ≡ with_binding (option_map string_bytes binding.now)) }
{
    match binding {
        Some(binding) => [" with binding '", binding.as_str(), "'"].concat(alloc),
        None => Ok(String::new(alloc)),
    }
}
