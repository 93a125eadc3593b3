//! Lines of loads, stores and raw slots: the operands after the mnemonic.
ghost use Rattle.assembler.specs.Forms.{ReadsOperands};
ghost use Rattle.insn_codec.specs.declared.mnemonic.Mnemonic.TheVariants as mnemonic;

use crate::lines::line::Line;
use crate::lines::line_error::LineError;
use crate::text::ranges::{long, short};
use crate::text::shapes::{place_number, place_register, register_place, register_word};
use crate::text::words::wide;
use insn_codec::{AtomicOp, Insn, SignedSize, Size, Statement, Width};

/// A load.
pub(crate) fn load(size: Size, text: &str) -> Result<Line<'_>, LineError>
    ensures { ReadsOperands (mnemonic.Load size) text.now result }
{
    let Some((dst, src, numeral)) = register_place(text) else {
        return Err(LineError::NoForm);
    };
    let Some(offset) = short(numeral) else {
        return Err(LineError::OutOfRange);
    };
    Ok(Line::Statement(Statement::Insn(Insn::Load {
        size,
        dst,
        src,
        offset,
    })))
}

/// A sign-extending load.
pub(crate) fn load_signed(size: SignedSize, text: &str) -> Result<Line<'_>, LineError>
    ensures { ReadsOperands (mnemonic.LoadSigned size) text.now result }
{
    let Some((dst, src, numeral)) = register_place(text) else {
        return Err(LineError::NoForm);
    };
    let Some(offset) = short(numeral) else {
        return Err(LineError::OutOfRange);
    };
    Ok(Line::Statement(Statement::Insn(Insn::LoadSigned {
        size,
        dst,
        src,
        offset,
    })))
}

/// A store of an immediate.
pub(crate) fn store_imm(size: Size, text: &str) -> Result<Line<'_>, LineError>
    ensures { ReadsOperands (mnemonic.StoreImm size) text.now result }
{
    let Some((dst, distance, number)) = place_number(text) else {
        return Err(LineError::NoForm);
    };
    let Some(offset) = short(distance) else {
        return Err(LineError::OutOfRange);
    };
    let Some(imm) = long(number) else {
        return Err(LineError::OutOfRange);
    };
    Ok(Line::Statement(Statement::Insn(Insn::StoreImm {
        size,
        dst,
        offset,
        imm,
    })))
}

/// A store of a register.
pub(crate) fn store(size: Size, text: &str) -> Result<Line<'_>, LineError>
    ensures { ReadsOperands (mnemonic.Store size) text.now result }
{
    let Some((dst, distance, src)) = place_register(text) else {
        return Err(LineError::NoForm);
    };
    let Some(offset) = short(distance) else {
        return Err(LineError::OutOfRange);
    };
    Ok(Line::Statement(Statement::Insn(Insn::Store {
        size,
        dst,
        offset,
        src,
    })))
}

/// An atomic operation on memory.
pub(crate) fn atomic(op: AtomicOp, width: Width, text: &str) -> Result<Line<'_>, LineError>
    ensures { ReadsOperands (mnemonic.Atomic op width) text.now result }
{
    let Some((dst, distance, src)) = place_register(text) else {
        return Err(LineError::NoForm);
    };
    let Some(offset) = short(distance) else {
        return Err(LineError::OutOfRange);
    };
    Ok(Line::Statement(Statement::Insn(Insn::Atomic {
        op,
        width,
        dst,
        offset,
        src,
    })))
}

/// A load of a 64-bit constant.
pub(crate) fn load_wide(text: &str) -> Result<Line<'_>, LineError>
    ensures { ReadsOperands mnemonic.LoadWide text.now result }
{
    let (dst, value) = register_word(text).ok_or(LineError::NoForm)?;
    Ok(Line::Statement(Statement::Insn(Insn::LoadWide { dst, value })))
}

/// A slot by its bytes.
pub(crate) fn slot(text: &str) -> Result<Line<'_>, LineError>
    ensures { ReadsOperands mnemonic.Slot text.now result }
{
    let word = wide(text).ok_or(LineError::NoForm)?;
    Ok(Line::Statement(Statement::Slot(word)))
}
