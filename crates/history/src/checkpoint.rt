//! A machine and its place in a run.
ghost use Rattle.std.specs.Prelude.{◌≡◌, ◌≤◌, ◌<◌, ◌+◌, ◌^◌, ◌⊎◌, ◌↔◌, false, IfOk, IsTrue, OnErr, OnOk};
ghost use Rattle.bpf_machine.specs.Step.{is_running, next_state};
ghost use Rattle.bpf_machine.specs.Trace.{state_after};

use crate::emulator::Emulator;
use crate::stop::is_stopped;
use std::alloc::AllocError;

/// The machine at a place of its run.
#[derive(Drop)]
pub(crate) struct Checkpoint<E> {
    /// The number of steps from the start of the run.
    pub(crate) place: u64,
    pub(crate) machine: E,
}

impl<E: Emulator> Checkpoint<E> {
    /// An equal machine at the same place.
    pub(crate) fn copy(&self) -> Result<Checkpoint<E>, AllocError>
        ensures { IfOk result (λ c. (c.place ≡ self.now.place) × (E.state c.machine ≡ E.state self.now.machine)) }
    {
        let machine = self.machine.copy()?;
        Ok(Checkpoint {
            place: self.place,
            machine,
        })
    }

    /// Runs `n` steps; steps after a stopped state change nothing.
    pub(crate) fn run(&mut self, n: u64) -> Result<(), AllocError>
        requires { self.old.place + n < 2 ^ 64 }
        ensures { OnOk result ((self.new.place ≡ self.old.place + n) × (E.state self.new.machine ≡ state_after n (E.state self.old.machine))) }
    {
        self.machine.run(n)?;
        self.place += n;
        Ok(())
    }

    /// Runs one step. If an allocation fails, the machine is unchanged.
    pub(crate) fn step(&mut self) -> Result<(), AllocError>
        requires { self.old.place + 1 < 2 ^ 64 }
        ensures ok { OnOk result ((self.new.place ≡ self.old.place + 1) × (E.state self.new.machine ≡ next_state (E.state self.old.machine))) }
        ensures err { OnErr result ((self.new.place ≡ self.old.place) × (E.state self.new.machine ≡ E.state self.old.machine)) }
    {
        self.machine.step()?;
        self.place += 1;
        Ok(())
    }

    /// Whether the machine is in the state of place `k`: `k` is its own place, or a later one after it stopped.
    pub(crate) fn reaches(&self, k: u64) -> bool
        ensures { IsTrue result ↔ ((self.now.place ≤ k) × (self.now.place < k → is_running (E.state self.now.machine).status ≡ false)) }
    {
        self.place == k || self.place < k && is_stopped(&self.machine)
    }
}

/// The later of the two machines at or before place `k`. The first always qualifies.
pub(crate) fn nearer<'a, E>(
    first: &'a Checkpoint<E>,
    second: &'a Checkpoint<E>,
    k: u64,
) -> &'a Checkpoint<E>
    requires { first.now.place ≤ k }
    ensures one { (result.now ≡ first.now) ⊎ (result.now ≡ second.now) }
    ensures at_most { result.now.place ≤ k }
    ensures greatest { (first.now.place ≤ result.now.place) × (second.now.place ≤ k → second.now.place ≤ result.now.place) }
{
    if first.place < second.place && second.place <= k {
        second
    } else {
        first
    }
}
