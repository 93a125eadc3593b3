//! Lines of arithmetic: the operands after the mnemonic.
ghost use Rattle.assembler.specs.Forms.{ReadsOperands};
ghost use Rattle.insn_codec.specs.declared.mnemonic.Mnemonic.TheVariants as mnemonic;

use crate::lines::line::Line;
use crate::lines::line_error::LineError;
use crate::text::ranges::operand_in_range;
use crate::text::registers::register;
use crate::text::shapes::{register_operand, two_registers};
use insn_codec::{AluOp, ByteOrder, Extension, Insn, Statement, SwapWidth, Width};

/// Arithmetic on a register and an operand.
pub(crate) fn alu(op: AluOp, width: Width, text: &str) -> Result<Line<'_>, LineError>
    ensures { ReadsOperands (mnemonic.Alu op width) text.now result }
{
    let Some((dst, value)) = register_operand(text) else {
        return Err(LineError::NoForm);
    };
    let Some(operand) = operand_in_range(value) else {
        return Err(LineError::OutOfRange);
    };
    Ok(Line::Statement(Statement::Insn(Insn::Alu {
        op,
        width,
        dst,
        operand,
    })))
}

/// The negation of a register.
pub(crate) fn neg(width: Width, text: &str) -> Result<Line<'_>, LineError>
    ensures { ReadsOperands (mnemonic.Neg width) text.now result }
{
    let dst = register(text).ok_or(LineError::NoForm)?;
    Ok(Line::Statement(Statement::Insn(Insn::Neg { width, dst })))
}

/// A sign-extending move.
pub(crate) fn sign_extend(extension: Extension, text: &str) -> Result<Line<'_>, LineError>
    ensures { ReadsOperands (mnemonic.SignExtend extension) text.now result }
{
    let (dst, src) = two_registers(text).ok_or(LineError::NoForm)?;
    Ok(Line::Statement(Statement::Insn(Insn::SignExtend {
        extension,
        dst,
        src,
    })))
}

/// A byte swap of a register.
pub(crate) fn byte_swap(
    order: ByteOrder,
    width: SwapWidth,
    text: &str,
) -> Result<Line<'_>, LineError>
    ensures { ReadsOperands (mnemonic.ByteSwap order width) text.now result }
{
    let dst = register(text).ok_or(LineError::NoForm)?;
    Ok(Line::Statement(Statement::Insn(Insn::ByteSwap { order, width, dst })))
}
