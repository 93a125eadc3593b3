//! Laws of the machine. Each is the clause of a function that does nothing.
#![tactic(auto, using(crate::proofs::States::states_are_kept, crate::proofs::States::step_is_row))]

ghost use Rattle.bpf_machine.specs.Decoding.{DecodesSpelling};
ghost use Rattle.bpf_machine.specs.InstructionRows.{ArithmeticRowsHold, AtomicRowsHold, CompareRowsHold, ProgramRowsHold};
ghost use Rattle.bpf_machine.specs.ReadRows.{RunReadRowsHold};
ghost use Rattle.bpf_machine.specs.Reads.{GreaterLimitGoesOn, LimitedStopsOnce, NoLimitIsRun, SlicesAgree};
ghost use Rattle.bpf_machine.specs.Rows.{MachineRowsHold};
ghost use Rattle.bpf_machine.specs.Starts.{StartsAreTables};
ghost use Rattle.bpf_machine.specs.States.{StatesAreKept, StepsAreRows};
ghost use Rattle.bpf_machine.specs.Trace.{StopsOnce};

use bpf_word::laws::{results_are_words, upper_half_is_zero};
use guest_memory::laws::{read_is_bytes, start_is_zero, write_is_bytes};
use helper_table::laws::tables_are_kept;
use insn_codec::spelled_is_spelling;

/// A run of at most n steps stops at one step, which `stop_place` computes.
pub fn stops_once()
    ensures { StopsOnce }
{}

/// A run with a limit of reads takes one number of steps, and no fewer within a greater limit. The greatest limit is
/// none. A run that is cut into two takes the same steps.
pub fn limits_hold()
    ensures once { LimitedStopsOnce }
    ensures none { NoLimitIsRun }
    ensures greater { GreaterLimitGoesOn }
    ensures slices { SlicesAgree }
{}

/// Images run by hand.
pub fn rows_stand()
    ensures { MachineRowsHold }
{}

/// What runs read, worked out by hand.
pub fn read_rows_stand()
    ensures { RunReadRowsHold }
{}

/// The results of single instructions, and the ends of short programs.
pub fn instructions_stand()
    ensures programs { ProgramRowsHold }
    ensures arithmetic { ArithmeticRowsHold }
    ensures comparisons { CompareRowsHold }
    ensures atomics { AtomicRowsHold }
{}

/// The machine finds at a slot the instruction that the code encodes there.
pub fn decodes_spelling()
    ensures { DecodesSpelling }
{
    spelled_is_spelling();
}

/// The step of a running machine is the row of the instruction at `pc`.
pub fn steps_are_rows()
    ensures { StepsAreRows }
{}

/// Every state of a run that starts on a table has eleven registers with one word each, at most
/// seven records, memory regions of the right sizes, and the values of a table.
pub fn states_are_kept()
    ensures { StatesAreKept }
{
    decodes_spelling();
    results_are_words();
    upper_half_is_zero();
    read_is_bytes();
    write_is_bytes();
    tables_are_kept();
    start_is_zero();
}

/// The values at the start with five accepted roots are a table.
pub fn starts_are_tables()
    ensures { StartsAreTables }
{}
