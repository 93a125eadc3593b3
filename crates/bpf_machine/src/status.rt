//! The status of a machine.
ghost use Rattle.std.specs.Prelude.{Some};
ghost use Rattle.bpf_machine.specs.Text.{status_text};

use crate::word_text::WordText;
use guest_memory::Fault;
use std::fmt;

/// Whether a machine is running, or how it has stopped.
#[derive(Clone, Copy, Debug, PartialEq, Eq)]
pub enum Status {
    Running,
    /// The program ended with this word in R0.
    Exited(u64),
    Fault(Fault),
}

impl fmt::Display for Status {
    ghost output = { λ s. Some (status_text s) };

    fn fmt<W: fmt::Write>(&self, f: &mut fmt::Formatter<W>) -> fmt::Result {
        match self {
            Status::Running => write!(f, "running"),
            Status::Exited(word) => {
                let word = WordText(*word);
                write!(f, "exited {word}")
            }
            Status::Fault(fault) => write!(f, "fault {fault}"),
        }
    }
}
