//! The code of a program's text.

ghost use Rattle.std.specs.Prelude.{List, Result, ℕ};
ghost use Rattle.assembler.specs.Answers.{AssembleReturns, IsAssemblyResult};
ghost use Rattle.assembler.specs.Assembles.{Assembles};
ghost use Rattle.assembler.specs.Cutting.{lines_of};
ghost use Rattle.assembler.specs.declared.asm_error.AsmError.{AsmError as Refusal};

use crate::asm_error::AsmError;
use crate::passes::emit::emit;
use crate::passes::scan::scan;
use std::alloc::Global;

/// The bytes of the code of which the text is the source, eight for each slot.
///
/// # Errors
///
/// The error of the first line with one of these, and the first of them: `UnknownLine` (the line has no valid form),
/// `NumberOutOfRange`, `DuplicateLabel` (an earlier line defines the label), `TooManySlots` (the code has more than
/// 65,536 slots). If there is none, `UnknownLabel` or `JumpTooFar` of the first line whose label is not defined or
/// too far away. `Memory` if an allocation fails; an invalid first line is reported before anything is allocated.
pub fn assemble(alloc: Global, text: &str) -> Result<Vec<u8>, AsmError>
    ensures answers { AssembleReturns text.now result }
    ensures only { (r : Result (List ℕ) Refusal) → Assembles (lines_of text.now) r → IsAssemblyResult r result }
{
    let scanned = match scan(alloc, text) {
        Ok(scanned) => scanned,
        Err(error) => return Err(error),
    };
    emit(alloc, scanned.lines.as_slice(), &scanned.labels)
}
