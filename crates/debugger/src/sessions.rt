//! Sessions.
ghost use Rattle.std.specs.Prelude.{◌≡◌, Err};
ghost use Rattle.bpf_machine.specs.State.{start_state};
ghost use Rattle.debugger.specs.Inspection.{StaysSized};
ghost use Rattle.streams.specs.Streams.{stream};
ghost use Rattle.debugger.specs.Transcript.{IsSession};

use crate::conversation::Conversation;
use bpf_machine::Machine;
use guest_memory::Guest;
use history::{History, Past};
use loader::Image;
use std::alloc::Global;
use streams::{ReadBuffer, SessionError, Sink, Source, hear_input};
use value_store::ValueStore;
use value_table::Table;

/// A session with the run of an image on a table: reads lines, and writes the reply to each before the next is read,
/// until `q` or the input's end. It starts at step 0 without breakpoints. Only the first 2^63 bytes of an input are
/// read. Memory is allocated at the start, and then only for a new breakpoint, a move, a value, a listing and a
/// verdict: if that fails, the reply is `? memory` and nothing has changed.
///
/// # Errors
///
/// `ReadFailed` if a read failed and `WriteFailed` if a write failed or took no byte; either ends the session.
/// `Memory` if an allocation fails before the first line.
pub fn session<R: Source, W: Sink>(
    alloc: Global,
    image: Image,
    table: Table,
    r: &mut R,
    w: &mut W,
) -> Result<(), SessionError>
    ensures { IsSession
        (start_state image (record {
          values = ⟦<Table as ValueStore>⟧.values table;
          charge = ⟦<Table as ValueStore>⟧.charge table;
        }))
        (stream (R.left r.old) (R.failed r.old)) (stream (R.left r.new) (R.failed r.new))
        (stream (W.taken w.old) (W.failed w.old)) (stream (W.taken w.new) (W.failed w.new)) result }
{
    let machine = Machine::<Table, Guest>::start(alloc, image, table)?;
    session_from::<Past<Machine<Table, Guest>>, R, W>(alloc, machine, r, w)
}

/// A session with the run of a machine, shown by the caller's kind of history.
fn session_from<H: History, R: Source, W: Sink>(
    alloc: Global,
    machine: H::Machine,
    r: &mut R,
    w: &mut W,
) -> Result<(), SessionError>
    requires { StaysSized (H.Machine.state machine) }
    ensures { IsSession (H.Machine.state machine)
        (stream (R.left r.old) (R.failed r.old)) (stream (R.left r.new) (R.failed r.new))
        (stream (W.taken w.old) (W.failed w.old)) (stream (W.taken w.new) (W.failed w.new)) result }
{
    let history = H::begin(alloc, machine)?;
    session_over(alloc, history, r, w)
}

/// A session with a run that a history shows at step 0.
fn session_over<H: History, R: Source, W: Sink>(
    alloc: Global,
    history: H,
    r: &mut R,
    w: &mut W,
) -> Result<(), SessionError>
    requires place { H.place history ≡ 0 }
    requires states { StaysSized (H.origin history) }
    ensures session { IsSession (H.origin history)
        (stream (R.left r.old) (R.failed r.old)) (stream (R.left r.new) (R.failed r.new))
        (stream (W.taken w.old) (W.failed w.old)) (stream (W.taken w.new) (W.failed w.new)) result }
    ensures no_memory { result ≡ Err SessionError.Memory → ⊥ }
{
    let mut conversation = Conversation::new(alloc, history);
    let mut buffer = ReadBuffer::<1>::new();
    hear_input(&mut conversation, &mut buffer, r, w)
}
