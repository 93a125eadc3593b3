//! The calls without a gate. Each compiles its policy again.
ghost use Rattle.std.specs.Prelude.{◌≡◌};
ghost use Rattle.policy_glue.specs.OneImage.{OneImage};
ghost use Rattle.admission.specs.Standing.{steps_alone};
ghost use Rattle.admission.specs.declared.language.Language.TheVariants.{Profile};
ghost use Rattle.celbpf_calls.specs.Calls.{documents_of, interface_version, Answers, CompilesToRoom};
ghost use Rattle.celbpf_calls.specs.WideCalls.{as_stored, AnswersWide};

use admission::Limits;
use celbpf_calls::{Asked, compile, decide, decide_wide, interface_version};
use std::alloc::Global;

/// Decides a review under a policy, whose program may take at most `steps` steps and reads without a
/// limit. The text is the response, or the refusal's line. If the namespace or the params have no
/// bytes, there is no such document.
#[unsafe(no_mangle)]
pub extern "C" fn celbpf_review(
    alloc: Global,
    policy: &[u8],
    review: &[u8],
    namespace: &[u8],
    params: &[u8],
    steps: u64,
    room: &mut [u8],
    len: &mut usize,
) -> u32
    ensures { Answers OneImage (documents_of Profile policy.now review.now namespace.now params.now) (steps_alone steps) result room.old room.new len.new }
{
    let asked = Asked {
        review,
        namespace,
        params,
        limits: Limits::of_steps(steps),
    };
    decide(alloc, policy, asked, room, len)
}

/// Decides a review as `celbpf_review` does. The helper calls of the policy's program may read at
/// most `reads` bytes together; the greatest number is no limit.
#[unsafe(no_mangle)]
pub extern "C" fn celbpf_review_within(
    alloc: Global,
    policy: &[u8],
    review: &[u8],
    namespace: &[u8],
    params: &[u8],
    steps: u64,
    reads: u64,
    room: &mut [u8],
    len: &mut usize,
) -> u32
    ensures { Answers OneImage (documents_of Profile policy.now review.now namespace.now params.now) (record { steps = steps; reads = reads }) result room.old room.new len.new }
{
    let asked = Asked {
        review,
        namespace,
        params,
        limits: Limits { steps, reads },
    };
    decide(alloc, policy, asked, room, len)
}

/// Decides a review as `celbpf_review_within` does, under a policy as clusters store it. The text of
/// a policy's refusal is the line that the program `gatekeeper` prints, without the name of a file.
#[unsafe(no_mangle)]
pub extern "C" fn celbpf_review_wide(
    alloc: Global,
    policy: &[u8],
    review: &[u8],
    namespace: &[u8],
    params: &[u8],
    steps: u64,
    reads: u64,
    room: &mut [u8],
    len: &mut usize,
) -> u32
    ensures { AnswersWide (documents_of as_stored policy.now review.now namespace.now params.now) (record { steps = steps; reads = reads }) result room.old room.new len.new }
{
    let asked = Asked {
        review,
        namespace,
        params,
        limits: Limits { steps, reads },
    };
    decide_wide(alloc, policy, asked, room, len)
}

/// Compiles a policy. The text is the file of its image, or the refusal's line.
#[unsafe(no_mangle)]
pub extern "C" fn celbpf_compile(
    alloc: Global,
    policy: &[u8],
    room: &mut [u8],
    len: &mut usize,
) -> u32
    ensures { CompilesToRoom policy.now result room.old room.new len.new }
{
    compile(alloc, policy, room, len)
}

/// The version of this interface, as in the header.
#[unsafe(no_mangle)]
pub extern "C" fn celbpf_version() -> u32
    ensures { result ≡ interface_version }
{
    interface_version()
}
