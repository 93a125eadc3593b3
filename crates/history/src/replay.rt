//! Replays a run from one place to a later one.
ghost use Rattle.std.specs.Prelude.{◌≡◌, ◌≤◌, [], IfOk, OnErr};
ghost use Rattle.history.specs.Past.{IsCheckpoint, HasPlacesAdded, Reaches};

use crate::checkpoint::Checkpoint;
use crate::checkpoints::{CHECKPOINT_INTERVAL, Checkpoints};
use crate::emulator::Emulator;
use std::alloc::AllocError;

/// Runs a machine to place `to`, or to the end of the stretch in which it stops, and keeps checkpoints on the way. If
/// an allocation fails, the place that it reached is unknown.
#[tactic(auto, using(crate::proofs::Places::kept_all))]
pub(crate) fn replay<E: Emulator>(
    checkpoints: &mut Checkpoints<E>,
    from: Checkpoint<E>,
    to: u64,
) -> Result<Checkpoint<E>, AllocError>
    requires here { IsCheckpoint E.state checkpoints.old.origin from }
    requires order { from.place ≤ to }
    ensures kept { HasPlacesAdded checkpoints.old checkpoints.new }
    ensures here { IfOk result (λ c. IsCheckpoint E.state checkpoints.old.origin c) }
    ensures order { IfOk result (λ c. (from.place ≤ c.place) × (c.place ≤ to)) }
    ensures reaches { IfOk result (λ c. Reaches checkpoints.old.origin c.place to) }
{
    let mut at = from;
    while !at.reaches(to) {
        let place = at.place;
        let steps = (CHECKPOINT_INTERVAL - place % CHECKPOINT_INTERVAL).min(to - place);
        at.run(steps)?;
        // If the checkpoint cannot be allocated, it is left out.
        let _left_out = checkpoints.keep(&at);
    }
    Ok(at)
}

/// Replays step by step, from the nearest available machine. If an allocation fails, the
/// oldest checkpoints are dropped to make room.
#[tactic(auto, using(crate::proofs::Places::kept_all))]
pub(crate) fn replay_sparing<E: Emulator>(
    checkpoints: &mut Checkpoints<E>,
    shown: &Checkpoint<E>,
    to: u64,
) -> Result<Checkpoint<E>, AllocError>
    requires here { IsCheckpoint E.state checkpoints.old.origin shown.now }
    ensures kept { HasPlacesAdded checkpoints.old checkpoints.new }
    ensures here { IfOk result (λ c. IsCheckpoint E.state checkpoints.old.origin c) }
    ensures order { IfOk result (λ c. c.place ≤ to) }
    ensures reaches { IfOk result (λ c. Reaches checkpoints.old.origin c.place to) }
    ensures memory { OnErr result (checkpoints.new.places ≡ []) }
{
    let mut at = checkpoints.aside(shown, to)?;
    while !at.reaches(to) {
        checkpoints.step(&mut at)?;
        // If the checkpoint cannot be allocated, it is left out.
        let _left_out = checkpoints.keep(&at);
    }
    Ok(at)
}

/// The machine at place `to`, or at the end of the stretch in which it stops before it: replayed by
/// stretches, or step by step if an allocation fails.
#[tactic(auto, using(crate::proofs::Places::kept_on))]
pub(crate) fn reach<E: Emulator>(
    checkpoints: &mut Checkpoints<E>,
    from: Checkpoint<E>,
    shown: &Checkpoint<E>,
    to: u64,
) -> Result<Checkpoint<E>, AllocError>
    requires here { IsCheckpoint E.state checkpoints.old.origin from }
    requires order { from.place ≤ to }
    requires shown { IsCheckpoint E.state checkpoints.old.origin shown.now }
    ensures kept { HasPlacesAdded checkpoints.old checkpoints.new }
    ensures here { IfOk result (λ c. IsCheckpoint E.state checkpoints.old.origin c) }
    ensures order { IfOk result (λ c. c.place ≤ to) }
    ensures reaches { IfOk result (λ c. Reaches checkpoints.old.origin c.place to) }
    ensures memory { OnErr result (checkpoints.new.places ≡ []) }
{
    match replay(checkpoints, from, to) {
        Ok(reached) => Ok(reached),
        Err(_) => replay_sparing(checkpoints, shown, to),
    }
}
