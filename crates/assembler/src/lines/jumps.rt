//! Lines of jumps and calls: the operands after the mnemonic.
ghost use Rattle.std.specs.Prelude.{◌≡◌, ◌∷◌, [], ℕ, List};
ghost use Rattle.insn_codec.specs.Lines.{operands_text};
ghost use Rattle.insn_codec.specs.declared.mnemonic.Mnemonic.TheVariants as mnemonic;
ghost use Rattle.assembler.specs.Forms.{ReadsOperands};
ghost use Rattle.assembler.specs.Jumps.{JumpInRange, jump_mnemonic, jump_operands};
ghost use Rattle.assembler.specs.Targets.{TargetIs};

use crate::lines::jump::Jump;
use crate::lines::line::Line;
use crate::lines::line_error::LineError;
use crate::text::numerals::immediate;
use crate::text::ranges::{long, operand_in_range};
use crate::text::shapes::comparison_and_target;
use crate::text::targets::{Target, target_of};
use insn_codec::{Comparison, Insn, Statement, Width};

/// A jump or a call whose only operand is its target.
pub(crate) fn jump(jump: Jump, text: &str) -> Result<Line<'_>, LineError>
    requires alone { jump_operands jump text.now ≡ text.now ∷ [] }
    ensures { ReadsOperands (jump_mnemonic jump) text.now result }
{
    let target = target_of(text).ok_or(LineError::NoForm)?;
    jump_to(jump, target)
}

/// A jump that is taken if the comparison holds.
pub(crate) fn branch(
    comparison: Comparison,
    width: Width,
    text: &str,
) -> Result<Line<'_>, LineError>
    ensures { ReadsOperands (mnemonic.Branch comparison width) text.now result }
{
    let Some((dst, value, target)) = comparison_and_target(text) else {
        return Err(LineError::NoForm);
    };
    let Some(operand) = operand_in_range(value) else {
        return Err(LineError::OutOfRange);
    };
    jump_to(
        Jump::Branch {
            comparison,
            width,
            dst,
            operand,
        },
        target,
    )
}

/// The jump to its target: the statement with the offset, or a jump to the label.
fn jump_to(jump: Jump, target: Target<'_>) -> Result<Line<'_>, LineError>
    requires range { JumpInRange jump }
    ensures { (goal : List ℕ) → TargetIs target.entry goal → ReadsOperands (jump_mnemonic jump) (operands_text (jump_operands jump goal)) result }
{
    let numeral = match target {
        Target::Name(name) => return Ok(Line::Jump(jump, name)),
        Target::Offset(numeral) => numeral,
    };
    let Some(offset) = long(numeral) else {
        return Err(LineError::OutOfRange);
    };
    match jump.with_offset(offset) {
        Some(statement) => Ok(Line::Statement(statement)),
        None => Err(LineError::OutOfRange),
    }
}

/// A call of a helper.
pub(crate) fn call(text: &str) -> Result<Line<'_>, LineError>
    ensures { ReadsOperands mnemonic.Call text.now result }
{
    let Some(numeral) = immediate(text) else {
        return Err(LineError::NoForm);
    };
    let Some(helper) = long(numeral) else {
        return Err(LineError::OutOfRange);
    };
    Ok(Line::Statement(Statement::Insn(Insn::Call { helper })))
}
