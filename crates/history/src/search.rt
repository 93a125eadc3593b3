//! Searches of a run in both directions.
ghost use Rattle.std.specs.Prelude.{◌≡◌, ◌-◌, ◌<◌, ◌+◌, ◌^◌, [], IfOk, IsOk, OnErr};
ghost use Rattle.history.specs.Search.{first_stop, last_stop};
ghost use Rattle.history.specs.Past.{IsCheckpoint, HasPlacesAdded, IsSpared, Reaches};

use crate::checkpoint::Checkpoint;
use crate::checkpoints::Checkpoints;
use crate::emulator::Emulator;
use crate::stop::{is_stop, is_stopped, stands_at};
use crate::stops::Stops;
use std::alloc::AllocError;

/// The least place after the one shown and up to `to` at which the run stops,
/// else `to`. Keeps checkpoints on the way.
#[tactic(auto, using(crate::proofs::Places::kept_all))]
pub(crate) fn first_after<E: Emulator>(
    checkpoints: &mut Checkpoints<E>,
    shown: &Checkpoint<E>,
    to: u64,
    stops: &Stops<'_>,
) -> Result<u64, AllocError>
    requires here { IsCheckpoint E.state checkpoints.old.origin shown.now }
    requires order { shown.now.place < to }
    ensures kept { HasPlacesAdded checkpoints.old checkpoints.new }
    ensures found { IfOk result (λ j. j ≡ first_stop stops.now checkpoints.old.origin shown.now.place (to - shown.now.place)) }
    ensures no_memory { Reaches checkpoints.old.origin shown.now.place (to - 1) → IsOk result × (checkpoints.new ≡ checkpoints.old) }
    ensures memory { OnErr result (checkpoints.new.places ≡ []) }
{
    let next = shown.place + 1;
    if shown.reaches(to - 1) {
        return Ok(next);
    }
    let mut at = checkpoints.aside(shown, shown.place)?;
    for place in next..to {
        checkpoints.step(&mut at)?;
        if is_stop(&at.machine, stops) {
            return Ok(place);
        }
        // If the checkpoint cannot be allocated, it is left out.
        let _left_out = checkpoints.keep(&at);
    }
    Ok(to)
}

/// The greatest place before the one shown whose `pc` is one of the slots in `stops`, else 0. Goes back from
/// checkpoint to checkpoint; without slots it searches nothing.
#[tactic(auto, using(crate::proofs::Places::spared_all))]
pub(crate) fn last_before<E: Emulator>(
    checkpoints: &mut Checkpoints<E>,
    shown: &Checkpoint<E>,
    stops: &Stops<'_>,
) -> Result<u64, AllocError>
    requires { IsCheckpoint E.state checkpoints.old.origin shown.now }
    ensures spared { IsSpared checkpoints.old checkpoints.new }
    ensures found { IfOk result (λ j. j ≡ last_stop stops.now checkpoints.old.origin shown.now.place) }
    ensures no_memory { shown.now.place ≡ 0 → IsOk result × (checkpoints.new ≡ checkpoints.old) }
    ensures no_stops { stops.now ≡ [] → IsOk result × (checkpoints.new ≡ checkpoints.old) }
    ensures memory { OnErr result (checkpoints.new.places ≡ []) }
{
    if stops.is_empty() {
        return Ok(0);
    }
    let mut end = shown.place;
    while end > 0 {
        let from = checkpoints.aside(shown, end - 1)?;
        let begin = from.place;
        let is_there = stands_at(&from.machine, stops);
        let last = last_of_stretch(checkpoints, from, end - begin, stops)?;
        if last > 0 || is_there {
            return Ok(begin + last);
        }
        end = begin;
    }
    Ok(0)
}

/// The last place before place `n` whose `pc` is one of the slots, in the run that starts with this machine, else 0.
#[tactic(auto, using(crate::proofs::Places::spared_all))]
fn last_of_stretch<E: Emulator>(
    checkpoints: &mut Checkpoints<E>,
    first: Checkpoint<E>,
    n: u64,
    stops: &Stops<'_>,
) -> Result<u64, AllocError>
    requires some { 0 < n }
    requires fits { first.place + n < 2 ^ 64 }
    ensures spared { IsSpared checkpoints.old checkpoints.new }
    ensures found { IfOk result (λ j. j ≡ last_stop stops.now (E.state first.machine) n) }
    ensures memory { OnErr result (checkpoints.new.places ≡ []) }
{
    let mut at = first;
    let mut last = 0;
    for place in 1..n {
        if is_stopped(&at.machine) {
            // The run stays here up to the end of the stretch.
            return Ok(if stands_at(&at.machine, stops) {
                n - 1
            } else {
                last
            });
        }
        checkpoints.step(&mut at)?;
        if stands_at(&at.machine, stops) {
            last = place;
        }
    }
    Ok(last)
}
