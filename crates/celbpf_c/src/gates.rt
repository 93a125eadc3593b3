//! The calls on a gate that the caller holds in its own memory.
ghost use Rattle.std.specs.Prelude.{◌≡◌, ℕ, List, [], None, Some, IfOk};
ghost use Rattle.policy_glue.specs.OneImage.{OneImage};
ghost use Rattle.admission.specs.Deciding.{OpensGate};
ghost use Rattle.admission.specs.Standing.{steps_alone};
ghost use Rattle.admission.specs.declared.language.Language.{Language};
ghost use Rattle.celbpf_calls.specs.Calls.{documents_asked, documents_of, Answers};
ghost use Rattle.celbpf_calls.specs.Output.{Writes};
ghost use Rattle.celbpf_calls.specs.WideCalls.{OpensStored};
ghost use Rattle.celbpf_c.specs.Calls.{gate_view, image_held, Holds, MakesGate};
ghost use Rattle.celbpf_c.specs.WideCalls.{wide_gate_view, MakesWideGate};

use crate::gate_place::GatePlace;
use admission::{Gate, Limits, MessageRule, PolicyRefusal, WideGate, WideRefusal};
use celbpf_calls::{Asked, policy_status, write_answer, write_refusal, write_wide_refusal};
use cli::Refusal;
use std::alloc::{AllocError, Global};

/// Compiles a policy and puts its gate into the place. An earlier gate is freed. If the policy is
/// refused, the place is unchanged and the text is the refusal's line.
#[unsafe(no_mangle)]
pub extern "C" fn celbpf_gate_new(
    alloc: Global,
    place: &mut GatePlace,
    policy: &[u8],
    room: &mut [u8],
    len: &mut usize,
) -> u32
    ensures { MakesGate policy.now place.old.gate place.new.gate result room.old room.new len.new }
{
    match boxed_gate(alloc, policy) {
        Ok(gate) => put_gate(place, gate, len),
        Err(refusal) => {
            write_refusal(alloc, Refusal::from(refusal), room, len);
            policy_status(refusal)
        }
    }
}

/// Compiles a policy as clusters store it, and puts its gate into the place, as `celbpf_gate_new`
/// does. The text of a refusal is the line that the program `gatekeeper` prints, without the name of a
/// file.
#[unsafe(no_mangle)]
pub extern "C" fn celbpf_gate_new_wide(
    alloc: Global,
    place: &mut GatePlace,
    policy: &[u8],
    room: &mut [u8],
    len: &mut usize,
) -> u32
    ensures { MakesWideGate policy.now place.old.gate place.new.gate result room.old room.new len.new }
{
    match boxed_wide_gate(alloc, policy) {
        Ok(gate) => put_gate(place, gate, len),
        Err(refusal) => write_wide_refusal(alloc, &refusal, room, len),
    }
}

/// Decides a review with the gate in the place, whose program may take at most `steps` steps and
/// reads without a limit. The text is the response, or the refusal's line. If the namespace or the
/// params have no bytes, there is no such document. The place keeps its gate.
#[unsafe(no_mangle)]
pub extern "C" fn celbpf_gate_decide(
    alloc: Global,
    place: &mut GatePlace,
    review: &[u8],
    namespace: &[u8],
    params: &[u8],
    steps: u64,
    room: &mut [u8],
    len: &mut usize,
) -> u32
    ensures kept { place.new.gate ≡ place.old.gate }
    ensures empty { place.old.gate ≡ None → (result ≡ 10) × Writes [] room.old room.new len.new }
    ensures answers { (language : Language) (policy : List ℕ) → Holds language policy place.old.gate
        → Answers (image_held place.old.gate) (documents_of language policy review.now namespace.now params.now) (steps_alone steps) result room.old room.new len.new }
{
    let asked = Asked {
        review,
        namespace,
        params,
        limits: Limits::of_steps(steps),
    };
    decide(alloc, place, asked, room, len)
}

/// Decides a review as `celbpf_gate_decide` does. The helper calls of the policy's program may read
/// at most `reads` bytes together; the greatest number is no limit.
#[unsafe(no_mangle)]
pub extern "C" fn celbpf_gate_decide_within(
    alloc: Global,
    place: &mut GatePlace,
    review: &[u8],
    namespace: &[u8],
    params: &[u8],
    steps: u64,
    reads: u64,
    room: &mut [u8],
    len: &mut usize,
) -> u32
    ensures kept { place.new.gate ≡ place.old.gate }
    ensures empty { place.old.gate ≡ None → (result ≡ 10) × Writes [] room.old room.new len.new }
    ensures answers { (language : Language) (policy : List ℕ) → Holds language policy place.old.gate
        → Answers (image_held place.old.gate) (documents_of language policy review.now namespace.now params.now) (record { steps = steps; reads = reads }) result room.old room.new len.new }
{
    let asked = Asked {
        review,
        namespace,
        params,
        limits: Limits { steps, reads },
    };
    decide(alloc, place, asked, room, len)
}

/// Frees the gate in the place. An empty place stays empty.
#[unsafe(no_mangle)]
pub extern "C" fn celbpf_gate_free(alloc: Global, place: &mut GatePlace)
    ensures { place.new.gate ≡ None }
{
    drop(place.take(alloc));
}

/// Puts a gate into the place, with no text. Returns the status.
fn put_gate(place: &mut GatePlace, gate: Box<Gate>, len: &mut usize) -> u32
    ensures put { place.new.gate ≡ Some gate.value }
    ensures done { (result ≡ 0) × (len.new ≡ 0) }
{
    place.put(gate);
    *len = 0;
    0
}

/// Compiles a policy to a gate on the heap.
fn boxed_gate(alloc: Global, policy: &[u8]) -> Result<Box<Gate>, PolicyRefusal>
    ensures compiles { OpensGate policy.now (gate_view result) }
    ensures one { IfOk (gate_view result) (λ g. OneImage g.policy g.image) }
{
    let gate = Gate::new(alloc, policy)?;
    Ok(boxed(alloc, gate)?)
}

/// Compiles a policy as clusters store it to a gate on the heap.
fn boxed_wide_gate(alloc: Global, policy: &[u8]) -> Result<Box<Gate>, WideRefusal>
    ensures { OpensStored policy.now (wide_gate_view result) }
{
    let opened = WideGate::new(alloc, policy, MessageRule::Required)?;
    match boxed(alloc, opened.gate) {
        Ok(gate) => Ok(gate),
        Err(_) => Err(WideRefusal::Memory),
    }
}

/// Moves a value to the heap. It is `Send`, because the caller may use or free it on another
/// thread.
fn boxed<T: Send + Drop>(alloc: Global, value: T) -> Result<Box<T>, AllocError>
    ensures { IfOk result (λ b. b.value ≡ value) }
{
    match Box::new(alloc, value) {
        Ok(boxed) => Ok(boxed),
        Err(_) => Err(AllocError),
    }
}

/// Decides what is asked with the gate in the place, which keeps it.
fn decide(
    alloc: Global,
    place: &mut GatePlace,
    asked: Asked,
    room: &mut [u8],
    len: &mut usize,
) -> u32
    ensures kept { place.new.gate ≡ place.old.gate }
    ensures empty { place.old.gate ≡ None → (result ≡ 10) × Writes [] room.old room.new len.new }
    ensures answers { (language : Language) (policy : List ℕ) → Holds language policy place.old.gate
        → Answers (image_held place.old.gate) (documents_asked language policy asked.entry) asked.entry.limits result room.old room.new len.new }
{
    *len = 0;
    let Some(held) = place.take(alloc) else {
        return 10;
    };
    let answer = asked.decided_by(&held);
    place.put(held);
    write_answer(alloc, answer, room, len)
}
