//! The output of a finished order.
ghost use Rattle.std.specs.Prelude.{◌≡◌, ◌≢◌, ◌≤◌, [], vec_capacity, vec_len, IfOk, OnErr, OnOk};
ghost use Rattle.cli.specs.Refusals.{longest_line};
ghost use Rattle.cli.specs.declared.refusal.Refusal.TheVariants as cause;
ghost use Rattle.review_runner.specs.Output.{output_of, refused};

use cli::{Refusal, refusal_line};
use std::alloc::{AllocError, Global};

/// The program's exit status, and the bytes for standard output and standard error.
#[derive(Debug, Drop)]
pub struct Done {
    pub status: u8,
    pub out: Vec<u8>,
    pub err: Vec<u8>,
}

impl Done {
    /// Success, with no output.
    pub(crate) fn nothing(alloc: Global) -> Done
        ensures { output_of result ≡ record { status = 0; out = []; err = [] } }
    {
        Done {
            status: 0,
            out: Vec::new(alloc),
            err: Vec::new(alloc),
        }
    }

    /// The output for a refusal: its line, in a buffer with enough capacity. A failed allocation is
    /// an error instead.
    pub(crate) fn of_refusal(
        alloc: Global,
        refusal: Refusal,
        room: Vec<u8>,
    ) -> Result<Done, AllocError>
        requires empty { room.items ≡ [] }
        requires len { vec_len room ≡ 0 }
        requires enough { longest_line ≤ vec_capacity room }
        ensures done { IfOk result (λ d. output_of d ≡ refused refusal) }
        ensures memory { OnErr result (refusal ≡ cause.Memory) }
        ensures told { OnOk result (refusal ≢ cause.Memory) }
    {
        match refusal {
            Refusal::Memory => Err(AllocError),
            _ => Ok(Done::told(alloc, refusal, room)),
        }
    }

    /// The line and the status of a refusal, in a buffer with enough capacity.
    fn told(alloc: Global, refusal: Refusal, room: Vec<u8>) -> Done
        requires empty { room.items ≡ [] }
        requires len { vec_len room ≡ 0 }
        requires enough { longest_line ≤ vec_capacity room }
        ensures { output_of result ≡ refused refusal }
    {
        let line = refusal_line(alloc, refusal);
        Done {
            status: refusal.status(),
            out: Vec::new(alloc),
            err: line.in_room(room),
        }
    }
}
