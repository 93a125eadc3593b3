//! Rows worked out by hand, each record of them a clause of an empty function.
ghost use Rattle.machine_rows.specs.ExpressionReads.{ExpressionReadsHold, SearchLoopHolds, SearchRunHolds};
ghost use Rattle.machine_rows.specs.HelperRows.{BoundRowsHold, CallRowsHold};
ghost use Rattle.machine_rows.specs.ImageRows.{ImageRowsHold, CodeListingsHold};
ghost use Rattle.machine_rows.specs.InstructionRows.{FieldRowsHold, RegisterRowsHold, StatementRowsHold};
ghost use Rattle.machine_rows.specs.MemoryRows.{AccessRowsHold, FaultCodesHold, RegionRowsHold};
ghost use Rattle.machine_rows.specs.RunRows.{AddressRowsHold, FrameRowsHold, RunStepsHold};
ghost use Rattle.machine_rows.specs.SessionRows.{CommandRowsHold, MarkRowsHold, ShownRowsHold};
ghost use Rattle.machine_rows.specs.SourceRows.{LineRowsHold, SourceLabelsHold};
ghost use Rattle.machine_rows.specs.StreamRows.{StreamRowsHold, TextRowsHold};
ghost use Rattle.machine_rows.specs.ValueRows.{DocumentRowsHold, EqualityRowsHold, OutlineRowsHold, SizeRowsHold};
ghost use Rattle.machine_rows.specs.WordRows.{OrderRowsHold, SwapRowsHold, SumRowsHold};

/// Arithmetic, byte orders and comparisons of words.
pub fn word_rows_stand()
    ensures arithmetic { SumRowsHold }
    ensures swaps { SwapRowsHold }
    ensures order { OrderRowsHold }
{}

/// Instructions, statements and the numbers that fit their fields.
pub fn instruction_rows_stand()
    ensures registers { RegisterRowsHold }
    ensures statements { StatementRowsHold }
    ensures fields { FieldRowsHold }
{}

/// Regions of memory, their borders, and the codes of faults.
pub fn memory_rows_stand()
    ensures regions { RegionRowsHold }
    ensures access { AccessRowsHold }
    ensures faults { FaultCodesHold }
{}

/// Image files, and code without a listing.
pub fn image_rows_stand()
    ensures images { ImageRowsHold }
    ensures listings { CodeListingsHold }
{}

/// Failures of streams, and texts of documents.
pub fn stream_rows_stand()
    ensures streams { StreamRowsHold }
    ensures texts { TextRowsHold }
{}

/// Labels and lines of sources.
pub fn source_rows_stand()
    ensures names { SourceLabelsHold }
    ensures lines { LineRowsHold }
{}

/// Values with their sizes and outlines, and documents of reviews.
pub fn value_rows_stand()
    ensures equality { EqualityRowsHold }
    ensures sizes { SizeRowsHold }
    ensures outlines { OutlineRowsHold }
    ensures documents { DocumentRowsHold }
{}

/// Values that a program can have, and calls of helpers.
pub fn helper_rows_stand()
    ensures bounds { BoundRowsHold }
    ensures calls { CallRowsHold }
{}

/// What expressions read call by call, the turns of a loop, and a run with its limits.
pub fn expression_reads_stand()
    ensures calls { ExpressionReadsHold }
    ensures loops { SearchLoopHolds }
    ensures runs { SearchRunHolds }
{}

/// Addresses, local calls, and single steps.
pub fn run_rows_stand()
    ensures addresses { AddressRowsHold }
    ensures frames { FrameRowsHold }
    ensures steps { RunStepsHold }
{}

/// Lines of sessions, and what they show.
pub fn session_rows_stand()
    ensures commands { CommandRowsHold }
    ensures marks { MarkRowsHold }
    ensures shown { ShownRowsHold }
{}
