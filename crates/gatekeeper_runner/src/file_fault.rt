//! What is wrong with a file.
ghost use Rattle.std.specs.Prelude.{◌≡◌};
ghost use Rattle.gatekeeper_runner.specs.FileFaults.{fault_of_read, fault_of_policy, fault_of_wide};
ghost use Rattle.gatekeeper_runner.specs.declared.file_fault.FileFault.TheVariants as file_fault;

use admission::{PolicyRefusal, WideRefusal};
use host::{FileFailure, FileReadError};
use std::alloc::AllocError;

/// What is wrong with a file that a start reads.
#[derive(Drop)]
pub enum FileFault {
    /// It is not read, for this reason.
    Unread(FileFailure),
    /// The policy in it is refused.
    Refused(PolicyRefusal),
    /// The policy in it, which is read in the wide language, is refused.
    RefusedWide(WideRefusal),
    /// An allocation failed, which implies nothing about the file.
    Memory,
}

impl From<FileReadError> for FileFault {
    ghost from_gives = { λ e f. f ≡ fault_of_read e };

    fn from(error: FileReadError) -> FileFault {
        match error {
            FileReadError::Failed(why) => FileFault::Unread(why),
            FileReadError::Memory => FileFault::Memory,
        }
    }
}

impl From<PolicyRefusal> for FileFault {
    ghost from_gives = { λ e f. f ≡ fault_of_policy e };

    fn from(error: PolicyRefusal) -> FileFault {
        match error {
            PolicyRefusal::Memory => FileFault::Memory,
            other => FileFault::Refused(other),
        }
    }
}

impl From<WideRefusal> for FileFault {
    ghost from_gives = { λ e f. f ≡ fault_of_wide e };

    fn from(error: WideRefusal) -> FileFault {
        match error {
            WideRefusal::Memory => FileFault::Memory,
            other => FileFault::RefusedWide(other),
        }
    }
}

impl From<AllocError> for FileFault {
    ghost from_gives = { λ _ f. f ≡ file_fault.Memory };

    fn from(_error: AllocError) -> FileFault {
        FileFault::Memory
    }
}
