//! A history that keeps checkpoints of its run and replays the steps between them.
ghost use Rattle.std.specs.Prelude.{◌≡◌, ◌-◌, ◌<◌, ◌≤◌, ℕ, List, [], false, IfOk, IsOk, OnErr, OnOk};
ghost use Rattle.bpf_machine.specs.Trace.{state_after};
ghost use Rattle.history.specs.Unchanged.{IsUnchangedHistory};
ghost use Rattle.history.specs.Search.{first_stop, last_stop};
ghost use Rattle.history.specs.Past.{IsCheckpoint, IsReplay, KeepsPlaces, Reaches, Past as PastView};

use crate::checkpoint::Checkpoint;
use crate::checkpoints::Checkpoints;
use crate::emulator::Emulator;
use crate::history::History;
use crate::replay::reach;
use crate::search::{first_after, last_before};
use crate::stops::Stops;
use std::alloc::{AllocError, Global};
use std::marker::Model;

/// A run with the machine that is shown, and checkpoints from which the machines at other places are replayed.
#[derive(Drop)]
pub struct Past<E: Emulator> {
    checkpoints: Checkpoints<E>,
    /// The machine that is shown.
    shown: Checkpoint<E>,
    /// The steps of the last `go`.
    replayed: u64,
}

impl<E: Emulator> Model for Past<E> {
    ghost use Rattle.std.specs.Coded.{codes};
    ghost use Rattle.value_store.specs.Codes.{coded_stored};
    ghost use Rattle.history.specs.Past.{IsCheckpoint, Past};

    ghost Value = { Past };

    ghost coded = { Prim.hlevel (codes, coded_stored) };

    ghost view = { λ h. record {
      origin = h.checkpoints.origin;
      place = h.shown.place;
      checkpoints = h.checkpoints.places;
      replayed = h.replayed;
      dropped_checkpoint = h.checkpoints.dropped_checkpoint;
    } };

    ghost invariant = { λ h. IsCheckpoint E.state h.checkpoints.origin h.shown };
}

impl<E: Emulator> Past<E> {
    /// The steps of the last `go`: from the nearest available machine to the place that it showed, or to the end
    /// of the stretch in which the run stops before it.
    pub fn replayed(&self) -> u64
        ensures { result ≡ self.now.replayed }
    {
        self.replayed
    }

    /// Whether the last `go`, `first` or `last` dropped a checkpoint after a failed allocation.
    pub fn dropped_checkpoint(&self) -> bool
        ensures { result ≡ self.now.dropped_checkpoint }
    {
        self.checkpoints.dropped_checkpoint()
    }
}

impl<E: Emulator> History for Past<E> {
    type Machine = E;

    ghost origin = { λ h. h.origin };

    ghost place = { λ h. h.place };

    fn begin(alloc: Global, machine: E) -> Result<Self, AllocError>
        ensures origin { IfOk result (λ h. h.origin ≡ E.state machine) }
        ensures place { IfOk result (λ h. h.place ≡ 0) }
        ensures checkpoints { IfOk result (λ h. h.checkpoints ≡ []) }
        ensures replayed { IfOk result (λ h. h.replayed ≡ 0) }
        ensures dropped_checkpoint { IfOk result (λ h. h.dropped_checkpoint ≡ false) }
    {
        let start = machine.copy()?;
        let checkpoints = Checkpoints::new(alloc, start)?;
        Ok(Past {
            checkpoints,
            shown: Checkpoint { place: 0, machine },
            replayed: 0,
        })
    }

    fn now(&self) -> u64 {
        self.shown.place
    }

    fn machine(&self) -> &E {
        &self.shown.machine
    }

    #[tactic(auto, using(crate::proofs::AsBefore::as_before))]
    fn go(&mut self, k: u64) -> Result<(), AllocError>
        ensures ok { OnOk result (self.new.place ≡ k) }
        ensures origin { self.new.origin ≡ self.old.origin }
        ensures as_before { OnErr result (IsUnchangedHistory (λ (h : PastView). h.origin) (λ (h : PastView). h.place) self.old self.new) }
        ensures replayed { OnOk result (IsReplay self.old k self.new.replayed) }
        ensures unmoved { OnErr result (self.new.replayed ≡ self.old.replayed) }
        ensures keeps { (added : List ℕ) × KeepsPlaces self.new.dropped_checkpoint self.old.checkpoints added self.new.checkpoints }
        ensures memory { OnErr result (self.new.checkpoints ≡ []) }
        // Nothing is allocated to stay at a place, or to move on after a stopped state.
        ensures no_memory { self.old.place ≤ k → Reaches self.old.origin self.old.place k → IsOk result × (self.new.dropped_checkpoint ≡ false) }
    {
        self.checkpoints.tell_anew();
        if self.shown.reaches(k) {
            self.shown.place = k;
            self.replayed = 0;
            return Ok(());
        }
        let from = self.checkpoints.aside(&self.shown, k)?;
        let begin = from.place;
        let reached = reach(&mut self.checkpoints, from, &self.shown, k)?;
        self.replayed = reached.place.saturating_sub(begin);
        self.shown = Checkpoint {
            place: k,
            machine: reached.machine,
        };
        Ok(())
    }

    #[tactic(auto, using(crate::proofs::AsBefore::as_before, crate::proofs::Places::keeps_since))]
    fn first(&mut self, to: u64, stops: &[u64]) -> Result<u64, AllocError>
        requires { self.old.place < to }
        ensures found { IfOk result (λ j. j ≡ first_stop stops.now self.old.origin self.old.place (to - self.old.place)) }
        ensures as_before { IsUnchangedHistory (λ (h : PastView). h.origin) (λ (h : PastView). h.place) self.old self.new }
        ensures replayed { self.new.replayed ≡ self.old.replayed }
        ensures keeps { (added : List ℕ) × KeepsPlaces self.new.dropped_checkpoint self.old.checkpoints added self.new.checkpoints }
        ensures memory { OnErr result (self.new.checkpoints ≡ []) }
        // Nothing is allocated to look at the next place, or after a stopped state.
        ensures no_memory { Reaches self.old.origin self.old.place (to - 1) → IsOk result × (self.new.dropped_checkpoint ≡ false) }
    {
        self.checkpoints.tell_anew();
        first_after(&mut self.checkpoints, &self.shown, to, &Stops::of(stops))
    }

    #[tactic(auto, using(crate::proofs::AsBefore::as_before, crate::proofs::Places::spares_since))]
    fn last(&mut self, stops: &[u64]) -> Result<u64, AllocError>
        ensures found { IfOk result (λ j. j ≡ last_stop stops.now self.old.origin self.old.place) }
        ensures as_before { IsUnchangedHistory (λ (h : PastView). h.origin) (λ (h : PastView). h.place) self.old self.new }
        ensures replayed { self.new.replayed ≡ self.old.replayed }
        ensures keeps { KeepsPlaces self.new.dropped_checkpoint self.old.checkpoints [] self.new.checkpoints }
        ensures memory { OnErr result (self.new.checkpoints ≡ []) }
        ensures no_memory { self.old.place ≡ 0 → IsOk result × (self.new.dropped_checkpoint ≡ false) }
        ensures no_stops { stops.now ≡ [] → IsOk result × (self.new.dropped_checkpoint ≡ false) }
    {
        self.checkpoints.tell_anew();
        last_before(&mut self.checkpoints, &self.shown, &Stops::of(stops))
    }
}
