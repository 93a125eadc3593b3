//! Whether a run within limits ended with an exit.
ghost use Rattle.run_ends.specs.Exiting.{HasExited};

use crate::no_exit::NoExit;
use bpf_machine::{RunEnd, Status};

/// Checks that the run ended with an exit; else the error says why it did not.
pub fn has_exited(end: RunEnd) -> Result<(), NoExit>
    ensures { HasExited end.status end.is_held result }
{
    match end.status {
        Status::Exited(_) => Ok(()),
        Status::Fault(_) => Err(NoExit::Stopped),
        Status::Running if end.is_held => Err(NoExit::OutOfReads),
        Status::Running => Err(NoExit::OutOfSteps),
    }
}
