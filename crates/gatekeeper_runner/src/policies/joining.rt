//! Joins the rejections of several policies.
ghost use Rattle.std.specs.Prelude.{◌≡◌, option_map, IfOk, Some};
ghost use Rattle.policy_glue.specs.Rejections.{rejection_view};
ghost use Rattle.gatekeeper_runner.specs.Policies.Together.{and_also};

use policy_glue::Rejection;
use std::alloc::AllocError;

/// Both rejections as one: the messages joined with `; `, and the reason of the first.
pub fn and_also(
    first: Option<Rejection>,
    next: Option<Rejection>,
) -> Result<Option<Rejection>, AllocError>
    ensures { IfOk result (λ o. option_map rejection_view o ≡ and_also (option_map rejection_view first) (option_map rejection_view next)) }
{
    match first {
        None => Ok(next),
        Some(first) => match next {
            None => Ok(Some(first)),
            Some(next) => Ok(Some(joined(first, &next)?)),
        },
    }
}

/// The first rejection with the message of the next one appended.
fn joined(first: Rejection, next: &Rejection) -> Result<Rejection, AllocError>
    ensures { IfOk result (λ o. Some (rejection_view o) ≡ and_also (Some (rejection_view first)) (Some (rejection_view next.now))) }
{
    let mut message = first.message;
    message.push_str("; ")?;
    message.push_str(next.message.as_str())?;
    Ok(Rejection {
        message,
        reason: first.reason,
    })
}
