//! Field selection, indexing, and conversion to text.
//! Listed in `Code/Selection` of `expression_code/specs`, with laws in `Gives/Selection`.

ghost use Rattle.std.specs.Prelude.{◌≡◌, ◌<◌, ◌++◌, length, map, string_bytes, IfOk};
ghost use Rattle.expression_code.specs.Code.Calls.{operand_code};
ghost use Rattle.expression_code.specs.Code.Selection as specs;
ghost use Rattle.tree_code.specs.Code.Literals.{address_of, call_on_text};

use crate::code::Code;
use crate::code::calls::operand;
use crate::code::literals::text_range;
use crate::instructions::ja;
use crate::part::Part;
use Register::{R0, R1, R2, R3, R6};
use expression_code::helpers::{self, TEXT_KIND};
use expression_code::instructions::{call, jump_if_imm, mov_reg};
use insn_codec::{Comparison, Insn, Register};
use std::alloc::Global;

/// Calls the helper with a part and one of the texts.
fn call_with_text(alloc: Global, of: &Part, helper: i32, texts: &[String], text: &str) -> Code
    ensures { IfOk result (λ code. code.items ≡ operand_code of.now.leaf of.now.code.items Register.R1 ++ call_on_text helper (map string_bytes texts.now) text.now) }
{
    let mut code = operand(alloc, of, R1)?;
    code.extend_from_slice(&text_range(texts, text, R2, R3))?;
    code.push(call(helper))?;
    Ok(code)
}

/// The field with this name.
pub(crate) fn select(alloc: Global, of: &Part, texts: &[String], field: &str) -> Code
    ensures { IfOk result (λ code. code.items ≡ operand_code of.now.leaf of.now.code.items Register.R1 ++ specs.field_tail (address_of (map string_bytes texts.now) field.now) (length field.now)) }
{
    call_with_text(alloc, of, helpers::FIELD, texts, field)
}

/// Whether there is a field with this name.
pub(crate) fn has(alloc: Global, of: &Part, texts: &[String], field: &str) -> Code
    ensures { IfOk result (λ code. code.items ≡ operand_code of.now.leaf of.now.code.items Register.R1 ++ specs.has_tail (address_of (map string_bytes texts.now) field.now) (length field.now)) }
{
    call_with_text(alloc, of, helpers::HAS, texts, field)
}

/// Converts the value in R6 to a text: a text is unchanged, an int becomes decimal.
pub(crate) fn string_tail() -> [Insn; 7]
    ensures { result ≡ specs.string_tail }
{
    [
        mov_reg(R1, R6),
        call(helpers::KIND),
        jump_if_imm(Comparison::Ne, R0, TEXT_KIND, 2),
        mov_reg(R0, R6),
        ja(2),
        mov_reg(R1, R6),
        call(helpers::TEXT_OF_INT),
    ]
}
