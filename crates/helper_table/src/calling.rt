//! Calls of helpers: the effect of a call, and how it is carried out.
ghost use Rattle.std.specs.Prelude.{◌≡◌, ℕ, false, IsOk};
ghost use Rattle.helper_table.specs.Calls.{row_of, outcome_of, call_end};
ghost use Rattle.helper_table.specs.Outcome.{answer_among, charged};
ghost use Rattle.helper_table.specs.Effects.{means, CanFollow, outcome_by, CanDo, TakesEffect};
ghost use Rattle.helper_table.specs.Ends.{CallReturns, takes_memory};
ghost use Rattle.value_store.specs.Placing.{Contents};

use crate::building::{join, list_new, map_new, push, put};
use crate::comparisons::{equal, less, member, test_texts};
use crate::conversions::{int_new, int_of, kind, not, text_const, text_of_int};
use crate::helper::Helper;
use crate::helper_effect::HelperEffect;
use crate::helper_end::HelperEnd;
use crate::lookups::{count, field, has, index, item, size};
use crate::placement::Placement;
use crate::text_test::TextTest;
use guest_memory::{Fault, Regions};
use itoa::Buffer;
use std::alloc::AllocError;
use value_store::{CHARGE_LIMIT, ValueStore};

/// The effect of a helper's row on these arguments.
#[tactic(auto, unfolding(crate::specs::Calls::row_of, crate::specs::Comparisons::starts_row, crate::specs::Comparisons::ends_row, crate::specs::Comparisons::contains_row))]
fn effect_of<'a, V: ValueStore, M: Regions>(
    helper: Helper,
    args: [u64; 5],
    table: &mut V,
    memory: &'a M,
) -> Result<HelperEffect<'a>, Fault>
    ensures means { means (V.values table.old) result ≡ row_of helper args (V.values table.old) (M.bytes memory.now).constants }
    ensures can { CanFollow (V.values table.old) result }
    ensures values { V.values table.new ≡ V.values table.old }
    ensures charge { V.charge table.new ≡ V.charge table.old }
{
    let [a, b, c, _, _] = args;
    match helper {
        Helper::Kind => kind(table, a),
        Helper::IntOf => int_of(table, a),
        Helper::IntNew => int_new(a),
        Helper::TextConst => text_const(memory, a, b),
        Helper::Field => field(table, memory, a, b, c),
        Helper::Has => has(table, memory, a, b, c),
        Helper::Index => index(table, a, b),
        Helper::Size => size(table, a),
        Helper::Equal => equal(table, a, b),
        Helper::Less => less(table, a, b),
        Helper::Join => join(table, a, b),
        Helper::Starts => test_texts(table, TextTest::Starts, a, b),
        Helper::Ends => test_texts(table, TextTest::Ends, a, b),
        Helper::Contains => test_texts(table, TextTest::Contains, a, b),
        Helper::Member => member(table, a, b),
        Helper::ListNew => list_new(),
        Helper::Push => push(table, a, b),
        Helper::MapNew => map_new(),
        Helper::Put => put(table, a, b, c),
        Helper::Item => item(table, a, b),
        Helper::Count => count(table, a),
        Helper::TextOfInt => text_of_int(table, a),
        Helper::Not => not(table, a),
    }
}

/// The word of a placement, after its value is placed.
fn word_of<V: ValueStore>(table: &mut V, placement: Placement<'_>) -> Result<u64, AllocError>
    requires { CanDo (V.values table.old) placement }
    ensures done { (added : ℕ) → TakesEffect (outcome_by (V.values table.old) placement.entry added) result (V.values table.old) (V.values table.new) }
    ensures charge { V.charge table.new ≡ V.charge table.old }
{
    match placement {
        Placement::Word(word) => Ok(word),
        Placement::Int(n) => table.place_int(n),
        Placement::Text(text) => table.place_text(text),
        Placement::Decimal(n) => table.place_text(Buffer::new().format(n)),
        Placement::Part(h, i) => table.alias(h, i),
        Placement::Key(h, i) => table.alias_key(h, i),
        Placement::Join(a, b) => table.join(a, b),
        Placement::List => table.new_list(),
        Placement::Map => table.new_map(),
        Placement::Push(l, x) => table.push(l, x),
        Placement::Put(m, k, x) => table.put(m, k, x),
    }
}

/// Charges for an effect and carries it out.
fn perform<V: ValueStore>(table: &mut V, effect: HelperEffect<'_>) -> Result<HelperEnd, AllocError>
    requires { CanDo (V.values table.old) effect.placement }
    ensures ends { let old : Contents = record { values = V.values table.old; charge = V.charge table.old } in
        CallReturns
        (charged (answer_among old.values (outcome_by old.values effect.entry.placement effect.entry.added)) old.charge)
        result old (record { values = V.values table.new; charge = V.charge table.new }) }
    ensures memory { takes_memory (outcome_by (V.values table.old) effect.entry.placement effect.entry.added)
        (record { values = V.values table.old; charge = V.charge table.old }) ≡ false → IsOk result }
{
    if effect.added >= CHARGE_LIMIT - table.charge() {
        return Ok(HelperEnd::Stop(Fault::F8));
    }
    let word = word_of(table, effect.placement)?;
    table.spend(1 + effect.added);
    Ok(HelperEnd::Word(word))
}

/// Calls helper `id` on the words of the registers R1 to R5: its row of the helper table, on the values of the
/// store and the constants of the memory. If the call returns a word, the value of the row has been placed in
/// the store and the call charged. If it is stopped by a fault, the store is unchanged: `F5` for an unknown
/// number, `F6` for an invalid reference, `F3` for a range that is not completely in the constants, `F8` for a
/// charge or a depth above its limit, checked in this order.
///
/// # Errors
///
/// `AllocError` if the allocation for an appended value fails; the store is then unchanged. A call that is stopped,
/// or that returns a plain word or the reference of null, false or true, allocates nothing.
pub fn call<V: ValueStore, M: Regions>(
    id: i32,
    args: [u64; 5],
    table: &mut V,
    memory: &M,
) -> Result<HelperEnd, AllocError>
    ensures ends { let old : Contents = record { values = V.values table.old; charge = V.charge table.old } in
        CallReturns (call_end id args old (M.bytes memory.now).constants)
        result old (record { values = V.values table.new; charge = V.charge table.new }) }
    ensures memory { takes_memory (outcome_of id args (V.values table.old) (M.bytes memory.now).constants) (record { values = V.values table.old; charge = V.charge table.old }) ≡ false → IsOk result }
{
    let Some(helper) = Helper::of_number(id) else {
        return Ok(HelperEnd::Stop(Fault::F5));
    };
    match effect_of(helper, args, table, memory) {
        Ok(effect) => perform(table, effect),
        Err(fault) => Ok(HelperEnd::Stop(fault)),
    }
}
