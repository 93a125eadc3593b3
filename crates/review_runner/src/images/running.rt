//! Runs images and prints their registers.
ghost use Rattle.review_runner.specs.Running.{run_of_file, RunImageReturns};

use crate::images::null_table::null_table;
use bpf_machine::{Machine, Status};
use debugger::registers_and_move;
use guest_memory::Guest;
use loader::{Image, LoadError};
use std::alloc::Global;
use value_table::Table;

/// Why an image was not run: the refusal of its file, or a failed allocation.
pub type RunImageError = LoadError;

/// Runs the image in these bytes on five null roots, for at most `n` steps. The result is the lines
/// of r0 to r10, and the line of a move to the step where the run ended.
///
/// # Errors
///
/// The first refusal of the file. `Memory` if the file holds an image and an allocation fails.
#[tactic(auto, unfolding(crate::specs::Running::run_of_file, crate::specs::Running::shown_after))]
pub fn run_image(alloc: Global, file: &[u8], n: u64) -> Result<(Vec<u8>, Status), RunImageError>
    ensures { RunImageReturns (run_of_file file.now n) result }
{
    let image = Image::read(alloc, file)?;
    let mut machine = Machine::<Table, Guest>::start(alloc, image, null_table(alloc)?)?;
    let (steps, status) = machine.run(n)?;
    let text = registers_and_move(alloc, &machine, steps)?;
    Ok((text, status))
}
