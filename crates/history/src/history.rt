//! Runs that can be shown at each of their places.
ghost use Rattle.std.specs.Prelude.{◌≡◌, ◌<◌, ◌-◌, ℕ, IfOk, OnErr, OnOk};
ghost use Rattle.bpf_machine.specs.State.{State};
ghost use Rattle.bpf_machine.specs.Trace.{state_after};
ghost use Rattle.history.specs.Unchanged.{IsUnchangedHistory};
ghost use Rattle.history.specs.Search.{first_stop, last_stop};

use crate::emulator::Emulator;
use std::alloc::{AllocError, Global};

/// A run, and the place of it that is shown. Places count steps from the start.
pub trait History: Drop {
    type Machine: Emulator;

    /// The state at place 0.
    ghost origin: { Self → State };

    /// The place that is shown.
    ghost place: { Self → ℕ };

    /// The run of this machine, shown at place 0.
    fn begin(alloc: Global, machine: Self::Machine) -> Result<Self, AllocError>
        ensures origin { IfOk result (λ h. origin h ≡ Self.Machine.state machine) }
        ensures place { IfOk result (λ h. place h ≡ 0) };

    /// The place that is shown.
    fn now(&self) -> u64
        ensures { result ≡ place self.now };

    /// The machine at the place that is shown.
    fn machine(&self) -> &Self::Machine
        ensures { Self.Machine.state result.now ≡ state_after (place self.now) (origin self.now) };

    /// Shows place `k`. If an allocation fails, all results are unchanged.
    fn go(&mut self, k: u64) -> Result<(), AllocError>
        ensures ok { OnOk result (place self.new ≡ k) }
        ensures origin { origin self.new ≡ origin self.old }
        ensures as_before { OnErr result (IsUnchangedHistory origin place self.old self.new) };

    /// The least place after the one shown and up to `to` at which the run stops, since it is not running there or
    /// `pc` is one of the slots in `stops`; else `to`. All results are unchanged, also if an allocation fails.
    fn first(&mut self, to: u64, stops: &[u64]) -> Result<u64, AllocError>
        requires { place self.old < to }
        ensures found { IfOk result (λ j. j ≡ first_stop stops.now (origin self.old) (place self.old) (to - place self.old)) }
        ensures as_before { IsUnchangedHistory origin place self.old self.new };

    /// The greatest place before the one shown whose `pc` is one of the slots in `stops`, else 0. All
    /// results are unchanged, also if an allocation fails.
    fn last(&mut self, stops: &[u64]) -> Result<u64, AllocError>
        ensures found { IfOk result (λ j. j ≡ last_stop stops.now (origin self.old) (place self.old)) }
        ensures as_before { IsUnchangedHistory origin place self.old self.new };
}
