//! The helpers for the kind of a value, and for conversions between words, texts and bools.
ghost use Rattle.std.specs.Prelude.{◌≡◌, List};
ghost use Rattle.helper_table.specs.Calls.{on_value, on_range};
ghost use Rattle.helper_table.specs.Conversions.{kind_number, kind_row, int_of_row, int_new_row, text_const_row, text_of_int_row, not_row};
ghost use Rattle.helper_table.specs.Effects.{means, CanFollow};
ghost use Rattle.value_store.specs.Seen.{shape_view};
ghost use Rattle.value_store.specs.Value.{ValueOrError};

use crate::helper_effect::HelperEffect;
use crate::operands::{operand, range};
use crate::placement::Placement;
use guest_memory::{Fault, Regions};
use itoa::Buffer;
use value_store::{Shape, ValueStore};

/// The number of a kind.
pub(crate) fn kind_number(shape: Shape<'_>) -> u64
    ensures { result ≡ kind_number (shape_view shape.entry) }
{
    match shape {
        Shape::Error => 0,
        Shape::Null => 1,
        Shape::Bool(_) => 2,
        Shape::Int(_) => 3,
        Shape::Text(_) => 4,
        Shape::List(_) => 5,
        Shape::Map(_) => 6,
    }
}

/// Helper 1: the kind of a value, as a number.
#[tactic(auto, unfolding(crate::specs::Conversions::kind_row))]
pub(crate) fn kind<V: ValueStore>(table: &V, h: u64) -> Result<HelperEffect<'static>, Fault>
    ensures means { means (V.values table.now) result ≡ on_value (V.values table.now) h kind_row }
    ensures can { CanFollow (V.values table.now) result }
{
    let shape = operand(table, h)?;
    Ok(HelperEffect::word(kind_number(shape)))
}

/// Helper 2: an int as a word.
#[tactic(auto, unfolding(crate::specs::Conversions::int_of_row))]
pub(crate) fn int_of<V: ValueStore>(table: &V, h: u64) -> Result<HelperEffect<'static>, Fault>
    ensures means { means (V.values table.now) result ≡ on_value (V.values table.now) h int_of_row }
    ensures can { CanFollow (V.values table.now) result }
{
    match operand(table, h)? {
        Shape::Int(n) => Ok(HelperEffect::word(n.cast_unsigned())),
        _ => Ok(HelperEffect::word(0)),
    }
}

/// Helper 3: the word as an int, read as signed.
#[tactic(auto, unfolding(crate::specs::Conversions::int_new_row))]
pub(crate) fn int_new(word: u64) -> Result<HelperEffect<'static>, Fault>
    ensures means { (vs : List ValueOrError) → means vs result ≡ int_new_row word }
    ensures can { (vs : List ValueOrError) → CanFollow vs result }
{
    Ok(HelperEffect::int(word.cast_signed()))
}

/// Helper 4: the text in a range of constants.
#[tactic(auto, using(crate::proofs::Seeing::by_lent, crate::proofs::Seeing::no_text, crate::proofs::Seeing::text_of_utf8))]
pub(crate) fn text_const<M: Regions>(
    memory: &M,
    addr: u64,
    len: u64,
) -> Result<HelperEffect<'_>, Fault>
    ensures means { (vs : List ValueOrError) → means vs result ≡ on_range (M.bytes memory.now).constants addr len text_const_row }
    ensures can { (vs : List ValueOrError) → CanFollow vs result }
{
    let bytes = range(memory, addr, len)?;
    match std::str::from_utf8(bytes) {
        Ok(text) => Ok(HelperEffect {
            placement: Placement::Text(text),
            added: text.len() as u64,
        }),
        Err(_) => Ok(HelperEffect::word(0)),
    }
}

/// Helper 22: the decimal text of an int.
#[tactic(auto, unfolding(crate::specs::Conversions::text_of_int_row))]
pub(crate) fn text_of_int<V: ValueStore>(table: &V, h: u64) -> Result<HelperEffect<'static>, Fault>
    ensures means { means (V.values table.now) result ≡ on_value (V.values table.now) h text_of_int_row }
    ensures can { CanFollow (V.values table.now) result }
{
    match operand(table, h)? {
        Shape::Int(n) => Ok(HelperEffect {
            placement: Placement::Decimal(n),
            added: Buffer::new().format(n).len() as u64,
        }),
        _ => Ok(HelperEffect::word(0)),
    }
}

/// Helper 23: the negation of a bool.
#[tactic(auto, unfolding(crate::specs::Conversions::not_row))]
pub(crate) fn not<V: ValueStore>(table: &V, h: u64) -> Result<HelperEffect<'static>, Fault>
    ensures means { means (V.values table.now) result ≡ on_value (V.values table.now) h not_row }
    ensures can { CanFollow (V.values table.now) result }
{
    match operand(table, h)? {
        Shape::Bool(truth) => Ok(HelperEffect::truth(Some(!truth))),
        _ => Ok(HelperEffect::truth(None)),
    }
}
