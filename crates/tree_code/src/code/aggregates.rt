//! List and map literals.
//! Listed in `Code/Aggregates` of `expression_code/specs`, with laws in `Gives/Aggregates`.

ghost use Rattle.std.specs.Prelude.{◌≡◌, ◌<◌, ◌+◌, ◌++◌, IfOk, OnOk};
ghost use Rattle.expression_code.specs.Code.Aggregates as specs;
ghost use Rattle.expression_code.specs.Limits.{frame_words};

use crate::code::Code;
use crate::instructions::{load, store};
use Register::{R0, R1, R2, R3};
use expression_code::helpers;
use expression_code::instructions::{call, mov_reg};
use insn_codec::{Insn, Register};
use std::alloc::{AllocError, Global};

/// The number of slots that create an empty list or map, before its parts.
pub(crate) const HEAD_SLOTS: usize = 2;

/// The number of slots after an item that append it to the list.
pub(crate) const PUSH_SLOTS: usize = 4;

/// The number of slots between a key and its value, for a store.
pub(crate) const KEY_SLOTS: usize = 1;

/// The number of slots after a value that put the entry into the map.
pub(crate) const PUT_SLOTS: usize = 5;

/// Appends the code of one more item of the list in word k.
pub(crate) fn add_item(items: &mut Vec<Insn>, item: &[Insn], k: usize) -> Result<(), AllocError>
    requires { k < frame_words }
    ensures { OnOk result (items.new.items ≡ items.old.items ++ specs.item_code item.now k) }
{
    items.extend_from_slice(item)?;
    items.extend_from_slice(&[
        mov_reg(R2, R0),
        load(R1, k),
        call(helpers::PUSH),
        store(k, R0),
    ])?;
    Ok(())
}

/// The code of a list, given the code that appends its items to word k.
pub(crate) fn list(alloc: Global, items: &[Insn], k: usize) -> Code
    requires { k < frame_words }
    ensures { IfOk result (λ code. code.items ≡ specs.list_code items.now k) }
{
    let mut code = [call(helpers::LIST_NEW), store(k, R0)].to_vec(alloc)?;
    code.extend_from_slice(items)?;
    Ok(code)
}

/// Appends the code of one more key and its value, for the map in word k.
pub(crate) fn add_entry(
    entries: &mut Vec<Insn>,
    key: &[Insn],
    value: &[Insn],
    k: usize,
) -> Result<(), AllocError>
    requires { k + 1 < frame_words }
    ensures { OnOk result (entries.new.items ≡ entries.old.items ++ specs.entry_code key.now value.now k) }
{
    entries.extend_from_slice(key)?;
    entries.push(store(k + 1, R0))?;
    entries.extend_from_slice(value)?;
    entries.extend_from_slice(&[
        mov_reg(R3, R0),
        load(R2, k + 1),
        load(R1, k),
        call(helpers::PUT),
        store(k, R0),
    ])?;
    Ok(())
}

/// The code of a map, given the code that puts its entries into word k.
pub(crate) fn map(alloc: Global, entries: &[Insn], k: usize) -> Code
    requires { k < frame_words }
    ensures { IfOk result (λ code. code.items ≡ specs.map_code entries.now k) }
{
    let mut code = [call(helpers::MAP_NEW), store(k, R0)].to_vec(alloc)?;
    code.extend_from_slice(entries)?;
    Ok(code)
}
