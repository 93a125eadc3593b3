//! The calls without a gate. Each compiles its policy again.
ghost use Rattle.std.specs.Prelude.{◌≡◌};
ghost use Rattle.policy_glue.specs.OneImage.{OneImage};
ghost use Rattle.admission.specs.Deciding.{answer_view, Reviews};
ghost use Rattle.admission.specs.Standing.{RunAgrees};
ghost use Rattle.admission.specs.declared.language.Language.TheVariants.{Profile};
ghost use Rattle.celbpf_calls.specs.Calls.{documents_asked, file_view, interface_version, Answers, CompilesToRoom, IsFileOf};
ghost use Rattle.celbpf_calls.specs.WideCalls.{as_stored, AnswersWide};

use crate::asked::Asked;
use crate::output::{write_answer, write_done, write_refusal, write_wide_refusal};
use crate::statuses::policy_status;
use admission::{Gate, MessageRule, PolicyRefusal, Reply, RunError, WideGate, compile_document};
use cli::Refusal;
use std::alloc::Global;

/// Decides a review under a policy. The text is the response, or the refusal's line.
pub fn decide(alloc: Global, policy: &[u8], asked: Asked, room: &mut [u8], len: &mut usize) -> u32
    ensures { Answers OneImage (documents_asked Profile policy.now asked.entry) asked.entry.limits result room.old room.new len.new }
{
    let answer = reviewed(alloc, policy, asked);
    write_answer(alloc, answer, room, len)
}

/// Decides a review under a policy as clusters store it. The text of a policy's refusal is the line
/// that the program `gatekeeper` prints, without the name of a file.
pub fn decide_wide(
    alloc: Global,
    policy: &[u8],
    asked: Asked,
    room: &mut [u8],
    len: &mut usize,
) -> u32
    ensures { AnswersWide (documents_asked as_stored policy.now asked.entry) asked.entry.limits result room.old room.new len.new }
{
    match WideGate::new(alloc, policy, MessageRule::Required) {
        Ok(opened) => {
            let answer = asked.decided_by(&opened.gate);
            write_answer(alloc, answer, room, len)
        }
        Err(refusal) => write_wide_refusal(alloc, &refusal, room, len),
    }
}

/// Compiles a policy. The text is the file of its image, or the refusal's line.
pub fn compile(alloc: Global, policy: &[u8], room: &mut [u8], len: &mut usize) -> u32
    ensures { CompilesToRoom policy.now result room.old room.new len.new }
{
    match image_file(alloc, policy) {
        Ok(file) => write_done(&file, room, len),
        Err(refusal) => {
            write_refusal(alloc, Refusal::from(refusal), room, len);
            policy_status(refusal)
        }
    }
}

/// The version of the interface.
pub fn interface_version() -> u32
    ensures { result ≡ interface_version }
{
    1
}

/// The result of a review under a policy.
fn reviewed(alloc: Global, policy: &[u8], asked: Asked) -> Result<Reply, RunError>
    ensures reviews { Reviews (documents_asked Profile policy.now asked.entry) asked.entry.limits (answer_view result) }
    ensures runs { RunAgrees OneImage (documents_asked Profile policy.now asked.entry) asked.entry.limits (answer_view result) }
{
    let gate = Gate::new(alloc, policy)?;
    asked.decided_by(&gate)
}

/// The file of a policy's image.
fn image_file(alloc: Global, policy: &[u8]) -> Result<Vec<u8>, PolicyRefusal>
    ensures { IsFileOf policy.now (file_view result) }
{
    let compiled = compile_document(alloc, policy)?;
    Ok(compiled.image.write()?)
}
