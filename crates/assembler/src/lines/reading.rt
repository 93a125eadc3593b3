//! Parses one source line.
ghost use Rattle.std.specs.Prelude.{◌++◌, ◌∷◌, []};
ghost use Rattle.assembler.specs.Forms.{ReadsOperands};
ghost use Rattle.assembler.specs.LineAnswers.{ReadsAs};

use crate::lines::accesses::{atomic, load, load_signed, load_wide, slot, store, store_imm};
use crate::lines::arithmetic::{alu, byte_swap, neg, sign_extend};
use crate::lines::jump::Jump;
use crate::lines::jumps::{branch, call, jump};
use crate::lines::line::Line;
use crate::lines::line_error::LineError;
use crate::lines::mnemonics::mnemonic_of;
use crate::text::names::is_name;
use insn_codec::{Insn, Mnemonic, Statement};

/// Parses a line.
pub(crate) fn read_line(line: &str) -> Result<Line<'_>, LineError>
    ensures reads { ReadsAs line.now result }
{
    if let Some(name) = line.strip_suffix(':') {
        return label(name);
    }
    if line == "exit" {
        return Ok(Line::Statement(Statement::Insn(Insn::Exit)));
    }
    let Some((word, operands)) = line.split_once(' ') else {
        return Err(LineError::NoForm);
    };
    let Some(mnemonic) = mnemonic_of(word) else {
        return Err(LineError::NoForm);
    };
    read_operands(mnemonic, operands)
}

/// The line of a label, from the text before its colon.
#[tactic(auto, using(crate::proofs::Whole::label_only))]
fn label(name: &str) -> Result<Line<'_>, LineError>
    ensures { ReadsAs (name.now ++ 58 ∷ []) result }
{
    if is_name(name) {
        Ok(Line::Label(name))
    } else {
        Err(LineError::NoForm)
    }
}

/// The line with this mnemonic, from the text after the space.
fn read_operands(mnemonic: Mnemonic, text: &str) -> Result<Line<'_>, LineError>
    ensures { ReadsOperands mnemonic text.now result }
{
    match mnemonic {
        Mnemonic::Alu(op, width) => alu(op, width, text),
        Mnemonic::Neg(width) => neg(width, text),
        Mnemonic::SignExtend(extension) => sign_extend(extension, text),
        Mnemonic::ByteSwap(order, width) => byte_swap(order, width, text),
        Mnemonic::Ja => jump(Jump::Near, text),
        Mnemonic::JaLong => jump(Jump::Long, text),
        Mnemonic::Branch(comparison, width) => branch(comparison, width, text),
        Mnemonic::Call => call(text),
        Mnemonic::CallLocal => jump(Jump::CallLocal, text),
        Mnemonic::Exit => Err(LineError::NoForm),
        Mnemonic::Load(size) => load(size, text),
        Mnemonic::LoadSigned(size) => load_signed(size, text),
        Mnemonic::StoreImm(size) => store_imm(size, text),
        Mnemonic::Store(size) => store(size, text),
        Mnemonic::Atomic(op, width) => atomic(op, width, text),
        Mnemonic::LoadWide => load_wide(text),
        Mnemonic::Slot => slot(text),
    }
}
