//! Routines inside other code.

ghost use Rattle.std.specs.Prelude.{◌≡◌, ◌<◌, ◌≤◌, ◌++◌, IfOk};
ghost use Rattle.tree_code.specs.Code.Whole.{passed};
ghost use Rattle.expression_code.specs.Pieces.{size as size_of_piece};
ghost use Rattle.expression_code.specs.Variables.{memo_tail};
ghost use Rattle.expression_code.specs.Limits.{turn_slot_limit, memo_limit};

use crate::code::Code;
use crate::code::variables::memo_tail;
use crate::instructions::{ja, size};
use insn_codec::Insn;
use std::alloc::Global;

/// The routine of variable `i`, whose expression has this code, after a jump over it.
#[tactic(auto, using(crate::proofs::Lengths::size_append))]
pub fn passed_routine(alloc: Global, body: &[Insn], i: usize) -> Code
    requires short { size_of_piece body.now ≤ turn_slot_limit }
    requires few { i < memo_limit }
    ensures { IfOk result (λ code. code.items ≡ passed (body.now ++ memo_tail i)) }
{
    let tail = memo_tail(i);
    let mut code = Vec::new(alloc);
    code.push(ja(size(body) + size(&tail)))?;
    code.extend_from_slice(body)?;
    code.extend_from_slice(&tail)?;
    Ok(code)
}
