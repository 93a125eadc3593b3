//! Machines whose run can be recorded.
ghost use Rattle.std.specs.Prelude.{◌≡◌, IfOk, OnErr, OnOk};
ghost use Rattle.bpf_machine.specs.Operands.{register_in};
ghost use Rattle.bpf_machine.specs.State.{State};
ghost use Rattle.bpf_machine.specs.Step.{next_state};
ghost use Rattle.bpf_machine.specs.Trace.{state_after, IsReached};

use bpf_machine::{Frame, Machine, Status};
use guest_memory::Regions;
use insn_codec::Register;
use loader::Image;
use std::alloc::AllocError;
use value_store::ValueStore;

/// A machine whose run can be recorded, as histories and sessions need it.
pub trait Emulator: Drop {
    /// The store of its program's values.
    type Values: ValueStore;

    /// Its memory.
    type Memory: Regions;

    /// The current state.
    ghost state: { Self → State };

    /// Runs one step. If an allocation fails, the state is unchanged.
    fn step(&mut self) -> Result<Status, AllocError>
        ensures ok { OnOk result (state self.new ≡ next_state (state self.old)) }
        ensures status { IfOk result (λ s. s ≡ (state self.new).status) }
        ensures err { OnErr result (state self.new ≡ state self.old) };

    /// Runs `n` steps; steps after a stopped state change nothing. If an allocation fails, the machine is in the last
    /// state that it reached, whose step needs the allocation.
    fn run(&mut self, n: u64) -> Result<(), AllocError>
        ensures ok { OnOk result (state self.new ≡ state_after n (state self.old)) }
        ensures err { OnErr result (IsReached (state self.old) n (state self.new)) };

    /// An equal machine.
    fn copy(&self) -> Result<Self, AllocError>
        ensures { IfOk result (λ m. state m ≡ state self.now) };

    fn status(&self) -> Status
        ensures { result ≡ (state self.now).status };

    fn pc(&self) -> i64
        ensures { result ≡ (state self.now).pc };

    /// The image that the machine runs.
    fn image(&self) -> &Image
        ensures { result.now ≡ (state self.now).image };

    /// The word of a register.
    fn register(&self, register: Register) -> u64
        ensures { result ≡ register_in (state self.now) register };

    /// The frames of the callers, the newest last.
    fn records(&self) -> &[Frame]
        ensures { result.now ≡ (state self.now).records };

    fn memory(&self) -> &Self::Memory
        ensures { Self.Memory.bytes result.now ≡ (state self.now).memory };

    /// The values of the program, and their charge.
    fn values(&self) -> &Self::Values
        ensures { record { values = Self.Values.values result.now; charge = Self.Values.charge result.now } ≡ (state self.now).values };
}

impl<V: ValueStore, M: Regions> Emulator for Machine<V, M> {
    type Values = V;

    type Memory = M;

    ghost state = { λ m. m };

    fn step(&mut self) -> Result<Status, AllocError> {
        self.step()
    }

    fn run(&mut self, n: u64) -> Result<(), AllocError> {
        self.run(n)?;
        Ok(())
    }

    fn copy(&self) -> Result<Machine<V, M>, AllocError> {
        self.copy()
    }

    fn status(&self) -> Status {
        self.status()
    }

    fn pc(&self) -> i64 {
        self.pc()
    }

    fn image(&self) -> &Image {
        self.image()
    }

    fn register(&self, register: Register) -> u64 {
        self.register(register)
    }

    fn records(&self) -> &[Frame] {
        self.records()
    }

    fn memory(&self) -> &M {
        self.memory()
    }

    fn values(&self) -> &V {
        self.values()
    }
}
