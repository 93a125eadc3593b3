//! Whether a run stops at a machine.
ghost use Rattle.std.specs.Prelude.{◌≡◌, not};
ghost use Rattle.bpf_machine.specs.Step.{is_running};
ghost use Rattle.history.specs.Search.{is_at, is_stop};

use crate::emulator::Emulator;
use crate::stops::Stops;
use bpf_machine::Status;

pub(crate) fn is_stopped<E: Emulator>(machine: &E) -> bool
    ensures { result ≡ not (is_running (E.state machine.now).status) }
{
    !matches!(machine.status(), Status::Running)
}

/// Whether the run stops at this machine.
#[tactic(auto, unfolding(crate::specs::Search::is_stop))]
pub(crate) fn is_stop<E: Emulator>(machine: &E, stops: &Stops<'_>) -> bool
    ensures { result ≡ is_stop stops.now (E.state machine.now) }
{
    is_stopped(machine) || stands_at(machine, stops)
}

/// Whether the `pc` of this machine is one of these slots.
pub(crate) fn stands_at<E: Emulator>(machine: &E, stops: &Stops<'_>) -> bool
    ensures { result ≡ is_at stops.now (E.state machine.now).pc }
{
    is_at(machine.pc(), stops)
}

/// Whether `pc` is one of these slots.
#[tactic(auto, unfolding(crate::specs::Search::is_at))]
fn is_at(pc: i64, stops: &Stops<'_>) -> bool
    ensures { result ≡ is_at stops.now pc }
{
    match u64::try_from(pc) {
        Ok(slot) => stops.contains(slot),
        Err(_) => false,
    }
}
