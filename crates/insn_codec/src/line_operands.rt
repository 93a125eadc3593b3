//! The operands of an instruction's line, in order.
use crate::line_operand::LineOperand;

/// No operand, or up to three.
#[derive(Clone, Copy)]
pub(crate) enum LineOperands {
    Zero,
    One(LineOperand),
    Two(LineOperand, LineOperand),
    Three(LineOperand, LineOperand, LineOperand),
}
