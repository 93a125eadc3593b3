//! Variables. The first use of a variable runs its routine, which stores the value in a memo.
//! Listed in `Variables` of `expression_code/specs`, with laws there and in `Scopes`.

ghost use Rattle.std.specs.Prelude.{◌≡◌, ◌<◌, ◌≤◌, IfOk, IfSome};
ghost use Rattle.expression_code.specs.Variables as specs;
ghost use Rattle.expression_code.specs.Words.{memo_address as address_of_memo};
ghost use Rattle.tree_code.specs.Code.Expressions.{routine_named as first_named, variable_code};
ghost use Rattle.tree_code.specs.NameTable.{routines_within};
ghost use Rattle.expression_code.specs.Limits.{memo_limit, slot_reach};

use crate::code::Code;
use crate::code::names::nothing;
use crate::name_table::NameTable;
use Register::{R0, R1, R2};
use expression_code::instructions::{add, jump_if_imm, lddw, load_at, mov_reg, store_at};
use guest_memory::SCRATCH;
use insn_codec::{Comparison, Insn, Register};
use std::alloc::Global;

/// The number of slots of a use of a variable.
const USE_SLOTS: i32 = 6;

/// The address of the memo of variable i.
fn memo_address(i: usize) -> u64
    requires { i < memo_limit }
    ensures { result ≡ address_of_memo i }
{
    SCRATCH + 8 * i as u64
}

/// The value of variable i. Its memo holds the reference plus 1. If the memo is empty, the routine
/// is called; it begins at this offset from the slot after the call.
pub(crate) fn variable_use(i: usize, offset: i32) -> [Insn; 5]
    requires { i < memo_limit }
    ensures { result ≡ specs.use_code i offset }
{
    [
        lddw(R1, memo_address(i)),
        load_at(R0, R1),
        add(R0, -1),
        jump_if_imm(Comparison::Ne, R0, -1, 1),
        Insn::CallLocal { offset },
    ]
}

/// The end of the routine of variable i. Stores the reference in R0 plus 1 in the memo.
pub(crate) fn memo_tail(i: usize) -> [Insn; 5]
    requires { i < memo_limit }
    ensures { result ≡ specs.memo_tail i }
{
    [
        mov_reg(R2, R0),
        add(R2, 1),
        lddw(R1, memo_address(i)),
        store_at(R1, R2),
        Insn::Exit,
    ]
}

/// The number of the first variable with this name that has a routine, and the routine's first
/// slot.
#[tactic(auto, using(crate::proofs::Walks::found))]
fn routine_named(name: &str, around: &NameTable) -> Option<(usize, u32)>
    ensures routine { result ≡ first_named name.now (routines_within around.now) }
    ensures few { IfSome result (λ found. found.0 < memo_limit) }
    ensures near { IfSome result (λ found. found.1 ≤ slot_reach) }
{
    let count = around.variables.len().min(around.routines.len());
    for i in 0..count {
        if around.variables[i].name.as_str() == name {
            return Some((i, around.routines[i]));
        }
    }
    None
}

/// A use, at this slot, of the variable with this name.
pub(crate) fn variable(alloc: Global, name: &str, around: &NameTable, slot: usize) -> Code
    requires { slot ≤ slot_reach }
    ensures { IfOk result (λ code. code.items ≡ variable_code (first_named name.now (routines_within around.now)) slot) }
{
    match routine_named(name, around) {
        Some((i, routine)) => {
            let offset = routine as i32 - (slot as i32 + USE_SLOTS);
            variable_use(i, offset).to_vec(alloc)
        }
        None => nothing(alloc),
    }
}
