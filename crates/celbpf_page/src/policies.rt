//! The calls on policies.
ghost use Rattle.std.specs.Prelude.{◌≡◌};
ghost use Rattle.celbpf_calls.specs.Calls.{documents_of, interface_version, CompilesToRoom};
ghost use Rattle.celbpf_calls.specs.WideCalls.{as_stored, AnswersWide};
ghost use Rattle.celbpf_page.specs.Translations.{translation_view, IsTranslationText, TranslatesToRoom};

use admission::{Limits, MessageRule, WideRefusal};
use celbpf_calls::{
    Asked, compile, decide_wide, interface_version, write_done, write_wide_refusal,
};
use policy_translation::{read_translated, translation_text};
use std::alloc::Global;

/// Decides a review under a policy as clusters store it, whose program may take at most `steps`
/// steps, and whose helper calls may read at most `reads` bytes together. The text is the response,
/// or the refusal's line. If the namespace or the params have no bytes, there is no such document.
#[unsafe(no_mangle)]
pub extern "C" fn celbpf_page_review(
    alloc: Global,
    policy: &[u8],
    review: &[u8],
    namespace: &[u8],
    params: &[u8],
    steps: u64,
    reads: u64,
    room: &mut [u8],
    len: &mut usize,
) -> u32
    ensures { AnswersWide (documents_of as_stored policy.now review.now namespace.now params.now) (record { steps = steps; reads = reads }) result room.old room.new len.new }
{
    let asked = Asked {
        review,
        namespace,
        params,
        limits: Limits { steps, reads },
    };
    decide_wide(alloc, policy, asked, room, len)
}

/// Translates a policy as clusters store it. The text is what `gatekeeper --translate` prints, or the
/// refusal's line.
#[unsafe(no_mangle)]
pub extern "C" fn celbpf_page_translate(
    alloc: Global,
    policy: &[u8],
    room: &mut [u8],
    len: &mut usize,
) -> u32
    ensures { TranslatesToRoom policy.now result room.old room.new len.new }
{
    match translated(alloc, policy) {
        Ok(text) => write_done(&text, room, len),
        Err(refusal) => write_wide_refusal(alloc, &refusal, room, len),
    }
}

/// Compiles a policy. The text is the file of its image, or the refusal's line.
#[unsafe(no_mangle)]
pub extern "C" fn celbpf_page_compile(
    alloc: Global,
    policy: &[u8],
    room: &mut [u8],
    len: &mut usize,
) -> u32
    ensures { CompilesToRoom policy.now result room.old room.new len.new }
{
    compile(alloc, policy, room, len)
}

/// The version of the interface, which is that of `celbpf_c`.
#[unsafe(no_mangle)]
pub extern "C" fn celbpf_page_version() -> u32
    ensures { result ≡ interface_version }
{
    interface_version()
}

/// The text of a policy's translation.
fn translated(alloc: Global, policy: &[u8]) -> Result<Vec<u8>, WideRefusal>
    ensures { IsTranslationText policy.now (translation_view result) }
{
    let policy = read_translated(alloc, policy, MessageRule::Required)?;
    match translation_text(alloc, policy) {
        Ok(text) => Ok(text),
        Err(_) => Err(WideRefusal::Memory),
    }
}
