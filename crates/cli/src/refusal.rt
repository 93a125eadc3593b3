//! Why a program refuses what it is asked to do.
ghost use Rattle.std.specs.Prelude.{◌≡◌};
ghost use Rattle.cli.specs.Refusals.{file_refusal, load_refusal, order_refusal, policy_refusal_of, program_refusal, refusal_status, run_refusal, session_refusal};
ghost use Rattle.cli.specs.declared.refusal.Refusal.TheVariants as refusal;

use admission::{PolicyRefusal, RunError};
use assembler::AsmError;
use host::{FileError, OrderError};
use loader::LoadError;
use std::alloc::AllocError;
use streams::SessionError;

/// Why a program refuses what it is asked to do.
#[derive(Clone, Copy, Debug, PartialEq, Eq)]
pub enum Refusal {
    /// The words of the command line are invalid.
    Words,
    /// The file of the image is not an image.
    Image(LoadError),
    /// A file cannot be read or written.
    File,
    /// The text of a program is not UTF-8.
    Text,
    /// The text of a program does not assemble.
    Program(AsmError),
    /// A policy has no image.
    Policy(PolicyRefusal),
    /// A review has no response.
    Run(RunError),
    /// The input of a session could not be read.
    Input,
    /// The output of a session could not be written.
    Output,
    /// An allocation failed.
    Memory,
}

impl Refusal {
    /// The exit status.
    pub fn status(self) -> u8
        ensures { result ≡ refusal_status self }
    {
        match self {
            Refusal::Words => 2,
            Refusal::Run(error) => run_error_status(error),
            _ => 3,
        }
    }
}

impl From<AllocError> for Refusal {
    ghost from_gives = { λ _ r. r ≡ refusal.Memory };

    fn from(_error: AllocError) -> Refusal {
        Refusal::Memory
    }
}

impl From<AsmError> for Refusal {
    ghost from_gives = { λ e r. r ≡ program_refusal e };

    fn from(error: AsmError) -> Refusal {
        match error {
            AsmError::Memory => Refusal::Memory,
            _ => Refusal::Program(error),
        }
    }
}

impl From<FileError> for Refusal {
    ghost from_gives = { λ e r. r ≡ file_refusal e };

    fn from(error: FileError) -> Refusal {
        match error {
            FileError::Failed => Refusal::File,
            FileError::Memory => Refusal::Memory,
        }
    }
}

impl From<LoadError> for Refusal {
    ghost from_gives = { λ e r. r ≡ load_refusal e };

    fn from(error: LoadError) -> Refusal {
        match error {
            LoadError::Memory => Refusal::Memory,
            _ => Refusal::Image(error),
        }
    }
}

impl From<OrderError> for Refusal {
    ghost from_gives = { λ e r. r ≡ order_refusal e };

    fn from(error: OrderError) -> Refusal {
        match error {
            OrderError::InvalidArguments => Refusal::Words,
            OrderError::Memory => Refusal::Memory,
        }
    }
}

impl From<PolicyRefusal> for Refusal {
    ghost from_gives = { λ e r. r ≡ policy_refusal_of e };

    fn from(error: PolicyRefusal) -> Refusal {
        match error {
            PolicyRefusal::Memory => Refusal::Memory,
            _ => Refusal::Policy(error),
        }
    }
}

impl From<RunError> for Refusal {
    ghost from_gives = { λ e r. r ≡ run_refusal e };

    fn from(error: RunError) -> Refusal {
        match error {
            RunError::Memory => Refusal::Memory,
            _ => Refusal::Run(error),
        }
    }
}

impl From<SessionError> for Refusal {
    ghost from_gives = { λ e r. r ≡ session_refusal e };

    fn from(error: SessionError) -> Refusal {
        match error {
            SessionError::ReadFailed => Refusal::Input,
            SessionError::WriteFailed => Refusal::Output,
            SessionError::Memory => Refusal::Memory,
        }
    }
}

/// The exit status for a review without a response.
fn run_error_status(error: RunError) -> u8
    ensures { result ≡ refusal_status (refusal.Run error) }
{
    match error {
        RunError::OutOfSteps | RunError::OverLimit | RunError::OutOfReads => 4,
        RunError::PolicyRefused(_)
        | RunError::ReviewRefused
        | RunError::NamespaceOrParamsRefused
        | RunError::Memory => 3,
    }
}
