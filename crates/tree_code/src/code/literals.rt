//! Literals: null, bools, ints and texts.
//! Listed in `Code/Literals` and `Code/Leaves` of `expression_code/specs`, with laws in
//! `Gives/Leaves`.

ghost use Rattle.std.specs.Prelude.{◌≡◌, ◌∷◌, [], length, map, string_bytes, IfOk, IfSome};
ghost use Rattle.cel_reader.specs.Tree.{literal_view};
ghost use Rattle.expression_code.specs.Code.Leaves.{IsFrameWord};
ghost use Rattle.expression_code.specs.Code.Literals as base;
ghost use Rattle.expression_code.specs.Instructions.{lddw as load_wide_insn, put_length as put_length_insn};
ghost use Rattle.tree_code.specs.Code.Literals as specs;

use crate::code::Code;
use crate::code::names::leaf;
use crate::constants::place_of;
use Register::{R1, R2};
use cel_reader::Literal;
use expression_code::helpers;
use expression_code::instructions::{call, lddw, mov_imm};
use expression_code::references::{FALSE, NULL, TRUE};
use expression_code::simple_operand::SimpleOperand;
use guest_memory::CONSTANTS;
use insn_codec::{Insn, Register};
use std::alloc::Global;

/// The greatest immediate. The constants of an image cannot hold a text of this length.
const GREATEST_IMMEDIATE: usize = 0x7fff_ffff;

/// The address of this text, which is one of the texts.
fn address_of(texts: &[String], text: &str) -> u64
    ensures { result ≡ specs.address_of (map string_bytes texts.now) text.now }
{
    CONSTANTS.saturating_add(place_of(texts, text).unwrap_or(0))
}

/// Loads the length of a text into a register.
fn put_length(dst: Register, bytes: usize) -> Insn
    ensures { result ≡ put_length_insn dst bytes }
{
    mov_imm(dst, bytes.min(GREATEST_IMMEDIATE) as i32)
}

/// Loads the address and the length of a text into two registers.
pub(crate) fn text_range(
    texts: &[String],
    text: &str,
    address: Register,
    bytes: Register,
) -> [Insn; 2]
    ensures { result ≡ load_wide_insn address (specs.address_of (map string_bytes texts.now) text.now) ∷ put_length_insn bytes (length text.now) ∷ [] }
{
    [
        lddw(address, address_of(texts, text)),
        put_length(bytes, text.len()),
    ]
}

/// A bool; it has its own reference.
fn truth_leaf(truth: bool) -> SimpleOperand
    ensures leaf { result ≡ base.truth_leaf truth }
    ensures word { IsFrameWord result }
{
    SimpleOperand::Reference(if truth { TRUE } else { FALSE })
}

/// The simple operand for a literal, if there is one.
pub(crate) fn literal_leaf(literal: &Literal) -> Option<SimpleOperand>
    ensures leaf { result ≡ specs.literal_leaf (literal_view literal.now) }
    ensures word { IfSome result IsFrameWord }
{
    match literal {
        Literal::Null => Some(SimpleOperand::Reference(NULL)),
        Literal::Bool(b) => Some(truth_leaf(*b)),
        Literal::Int(_) | Literal::Text(_) => None,
    }
}

/// An int, created from its word.
fn int(alloc: Global, n: i64) -> Code
    ensures { IfOk result (λ code. code.items ≡ base.int_code n) }
{
    [lddw(R1, n.cast_unsigned()), call(helpers::INT_NEW)].to_vec(alloc)
}

/// A text, created from its bytes among the constants.
fn text(alloc: Global, texts: &[String], text: &str) -> Code
    ensures { IfOk result (λ code. code.items ≡ base.text_code (specs.address_of (map string_bytes texts.now) text.now) (length text.now)) }
{
    let mut code = text_range(texts, text, R1, R2).to_vec(alloc)?;
    code.push(call(helpers::TEXT_CONST))?;
    Ok(code)
}

/// The value of a literal. The text of a text literal is one of the texts.
pub(crate) fn literal(alloc: Global, texts: &[String], literal: &Literal) -> Code
    ensures { IfOk result (λ code. code.items ≡ specs.literal_code (map string_bytes texts.now) (literal_view literal.now)) }
{
    match literal {
        Literal::Null => leaf(alloc, SimpleOperand::Reference(NULL)),
        Literal::Bool(b) => leaf(alloc, truth_leaf(*b)),
        Literal::Int(n) => int(alloc, *n),
        Literal::Text(t) => text(alloc, texts, t.as_str()),
    }
}
