//! The first pass: parses the lines and finds the labels' slots.

ghost use Rattle.std.specs.Prelude.{◌≡◌};
ghost use Rattle.assembler.specs.Answers.{FirstPass, ReadsAt};
ghost use Rattle.assembler.specs.Cutting.{lines_of};
ghost use Rattle.assembler.specs.Items.{item_of, item_slots};

use crate::asm_error::AsmError;
use crate::lines::line::Line;
use crate::lines::line_error::LineError;
use crate::lines::reading::read_line;
use crate::passes::cutting::next_line;
use crate::passes::labels::{Labels, add_label};
use insn_codec::SLOT_LIMIT;
use std::alloc::Global;
use std::collections::BTreeMap;

/// The result of the first pass.
#[derive(Drop)]
pub(crate) struct Scanned<'a> {
    /// The parsed lines.
    pub(crate) lines: Vec<Line<'a>>,
    /// The labels' slots.
    pub(crate) labels: Labels,
}

/// Parses the line with this number.
fn read_at(line: &str, number: usize) -> Result<Line<'_>, AsmError>
    ensures { ReadsAt line.now number result }
{
    match read_line(line) {
        Ok(found) => Ok(found),
        Err(LineError::NoForm) => Err(AsmError::UnknownLine(number)),
        Err(LineError::OutOfRange) => Err(AsmError::NumberOutOfRange(number)),
    }
}

/// The number of slots of the line.
pub(crate) fn slots(line: &Line<'_>) -> u32
    ensures { result ≡ item_slots (item_of line.now) }
{
    match *line {
        Line::Statement(statement) => statement.slots() as u32,
        Line::Label(_) => 0,
        Line::Jump(_, _) => 1,
    }
}

/// Parses the lines of the text and finds the labels' slots.
///
/// # Errors
///
/// The error of the first line with one of these, and the first of them: `UnknownLine` (the line has no
/// valid form), `NumberOutOfRange`, `DuplicateLabel` (an earlier line defines the label),
/// `TooManySlots` (the code has more than 65,536 slots).
pub(crate) fn scan(alloc: Global, text: &str) -> Result<Scanned<'_>, AsmError>
    ensures { FirstPass (lines_of text.now) result }
{
    let mut lines = Vec::new(alloc);
    let mut labels = BTreeMap::new(alloc);
    let mut slot = 0;
    let mut rest = text;
    'lines: while let Some((front, more)) = next_line(rest) {
        let number = lines.len() + 1;
        let line = match read_at(front, number) {
            Ok(line) => line,
            Err(error) => return Err(error),
        };
        if let Err(error) = add_label(alloc, &mut labels, &line, slot, number) {
            return Err(error);
        }
        slot += slots(&line);
        if slot > SLOT_LIMIT {
            return Err(AsmError::TooManySlots(number));
        }
        lines.push(line)?;
        rest = more;
    }
    Ok(Scanned { lines, labels })
}
