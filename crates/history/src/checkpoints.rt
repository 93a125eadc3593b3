//! The checkpoints of a run.
ghost use Rattle.std.specs.Prelude.{◌≡◌, ◌∷◌, ◌+◌, ◌^◌, ◌<◌, [], false, IfNone, IfOk, IfSome, IsOk, OnErr, OnOk};
ghost use Rattle.history.specs.Past.{HasPlace, IsCheckpoint, IsDue, HasPlacesAdded, IsNearest, IsSpared};
ghost use Rattle.bpf_machine.specs.Step.{next_state};

use crate::checkpoint::{Checkpoint, nearer};
use crate::emulator::Emulator;
use circular_buffer::HeapCircularBuffer;
use std::alloc::{AllocError, Global};
use std::marker::Model;

/// The maximum number of checkpoints. One more replaces the oldest.
const CHECKPOINT_LIMIT: usize = 64;

/// The distance between two places for checkpoints, in steps.
pub(crate) const CHECKPOINT_INTERVAL: u64 = 1024;

/// The start of a run, and checkpoints of it in the order in which they were kept.
#[derive(Drop)]
pub(crate) struct Checkpoints<E: Emulator> {
    start: Checkpoint<E>,
    ring: HeapCircularBuffer<Checkpoint<E>>,
    /// Whether a checkpoint was dropped after a failed allocation.
    dropped_checkpoint: bool,
}

impl<E: Emulator> Model for Checkpoints<E> {
    ghost use Rattle.std.specs.Prelude.{◌≡◌, ◌≤◌, All, length, map};
    ghost use Rattle.std.specs.Coded.{codes};
    ghost use Rattle.value_store.specs.Codes.{coded_stored};
    ghost use Rattle.history.specs.Past.{IsCheckpoint, Checkpoints};

    ghost Value = { Checkpoints };

    ghost coded = { Prim.hlevel (codes, coded_stored) };

    ghost view = { λ c. record { origin = E.state c.start.machine; places = map (λ p. p.place) c.ring.items; dropped_checkpoint = c.dropped_checkpoint } };

    ghost invariant = { λ c. (c.start.place ≡ 0) × (c.ring.capacity ≡ 64) × All (IsCheckpoint E.state (E.state c.start.machine)) c.ring.items × (length c.ring.items ≤ 64) };
}

impl<E: Emulator> Checkpoints<E> {
    /// The run that starts with this machine. The memory for the list of checkpoints is allocated here.
    pub(crate) fn new(alloc: Global, machine: E) -> Result<Checkpoints<E>, AllocError>
        ensures origin { IfOk result (λ c. c.origin ≡ E.state machine) }
        ensures places { IfOk result (λ c. c.places ≡ []) }
        ensures dropped_checkpoint { IfOk result (λ c. c.dropped_checkpoint ≡ false) }
    {
        let ring = HeapCircularBuffer::with_capacity(alloc, CHECKPOINT_LIMIT)?;
        let start = Checkpoint { place: 0, machine };
        Ok(Checkpoints {
            start,
            ring,
            dropped_checkpoint: false,
        })
    }

    /// The greatest checkpoint at or before place `k`, or the start if there is none.
    pub(crate) fn nearest(&self, k: u64) -> &Checkpoint<E>
        ensures here { IsCheckpoint E.state self.now.origin result.now }
        ensures nearest { IsNearest (0 ∷ self.now.places) k result.now.place }
    {
        let mut nearest = &self.start;
        for i in 0..self.ring.len() {
            if let Some(checkpoint) = self.ring.get(i) {
                nearest = nearer(nearest, checkpoint, k);
            }
        }
        nearest
    }

    /// Resets the mark for dropped checkpoints.
    pub(crate) fn tell_anew(&mut self)
        ensures { self.new ≡ record { origin = self.old.origin; places = self.old.places; dropped_checkpoint = false } }
    {
        self.dropped_checkpoint = false;
    }

    /// Whether a checkpoint was dropped since the mark was reset.
    pub(crate) fn dropped_checkpoint(&self) -> bool
        ensures { result ≡ self.now.dropped_checkpoint }
    {
        self.dropped_checkpoint
    }

    /// Drops the oldest checkpoint after a failed allocation.
    #[tactic(auto, using(crate::proofs::Places::spared_all, crate::proofs::Places::spared_oldest))]
    fn take_oldest(&mut self) -> Option<Checkpoint<E>>
        ensures spared { IsSpared self.old self.new }
        ensures some { IfSome result (λ c. IsCheckpoint E.state self.old.origin c × (self.old.places ≡ c.place ∷ self.new.places)) }
        ensures none { IfNone result (self.new.places ≡ []) }
    {
        let oldest = self.ring.pop_front()?;
        self.dropped_checkpoint = true;
        Some(oldest)
    }

    /// An owned machine at the greatest place at or before `k`, out of the start, the checkpoints and
    /// the machine that is shown. If an allocation fails, the oldest checkpoints are dropped to make
    /// room; the one that is needed is taken itself.
    #[tactic(auto, using(crate::proofs::Places::spared_all))]
    pub(crate) fn aside(
        &mut self,
        shown: &Checkpoint<E>,
        k: u64,
    ) -> Result<Checkpoint<E>, AllocError>
        requires { IsCheckpoint E.state self.old.origin shown.now }
        ensures spared { IsSpared self.old self.new }
        ensures here { IfOk result (λ c. IsCheckpoint E.state self.old.origin c) }
        ensures nearest { IfOk result (λ c. IsNearest (0 ∷ shown.now.place ∷ self.old.places) k c.place) }
        ensures memory { OnErr result (self.new.places ≡ []) }
    {
        loop {
            let nearest = nearer(self.nearest(k), shown, k);
            let place = nearest.place;
            if let Ok(copy) = nearest.copy() {
                return Ok(copy);
            }
            let Some(oldest) = self.take_oldest() else {
                return Err(AllocError);
            };
            if oldest.place == place {
                return Ok(oldest);
            }
        }
    }

    /// Runs one step of a separate machine. If an allocation fails, the oldest checkpoints are dropped to make room.
    #[tactic(auto, using(crate::proofs::Places::spared_all, crate::proofs::Places::spared_on))]
    pub(crate) fn step(&mut self, machine: &mut Checkpoint<E>) -> Result<(), AllocError>
        requires { machine.old.place + 1 < 2 ^ 64 }
        ensures spared { IsSpared self.old self.new }
        ensures ok { OnOk result ((machine.new.place ≡ machine.old.place + 1) × (E.state machine.new.machine ≡ next_state (E.state machine.old.machine))) }
        ensures memory { OnErr result (self.new.places ≡ []) }
    {
        while machine.step().is_err() {
            if self.take_oldest().is_none() {
                return Err(AllocError);
            }
        }
        Ok(())
    }

    /// Keeps a copy of this machine, if its place is one for checkpoints and no machine is kept
    /// there. If an allocation fails, the oldest checkpoints are dropped to make room.
    pub(crate) fn keep(&mut self, machine: &Checkpoint<E>) -> Result<(), AllocError>
        requires { IsCheckpoint E.state self.old.origin machine.now }
        ensures kept { HasPlacesAdded self.old self.new }
        ensures due { IsDue self.old.places machine.now.place → OnOk result (HasPlace self.old self.new machine.now.place) }
        ensures not_due { (IsDue self.old.places machine.now.place → ⊥) → IsOk result × (self.new ≡ self.old) }
        ensures memory { OnErr result (self.new.places ≡ []) }
    {
        let place = machine.place;
        if place % CHECKPOINT_INTERVAL != 0 || self.nearest(place).place == place {
            return Ok(());
        }
        let checkpoint = self.aside(machine, place)?;
        let _oldest = self.ring.push_back(checkpoint);
        Ok(())
    }
}
