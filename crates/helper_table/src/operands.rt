//! The operands of a call: the value at a reference, and the bytes of a range of constants.
ghost use Rattle.std.specs.Prelude.{◌≡◌, ◌<◌, ◌^◌, IfOk, OnOk, MatchResult, is_some, slice_get, length};
ghost use Rattle.guest_memory.specs.declared.fault.Fault.TheVariants.{F3};
ghost use Rattle.helper_table.specs.Calls.{bytes_at};
ghost use Rattle.helper_table.specs.Kinds.{is_value};
ghost use Rattle.helper_table.specs.Operands.{place_of, place_part};
ghost use Rattle.helper_table.specs.Effects.{Sees};
ghost use Rattle.value_store.specs.Calls.{entries_at};
ghost use Rattle.value_store.specs.Seen.{shape_view, seen_size};

use guest_memory::{Fault, Regions};
use value_store::{Shape, ValueStore};

/// The outline of the value at a reference, or `F6` if the reference is invalid.
#[tactic(auto, using(std::proofs::lemmas::Option::slice_get_within))]
pub(crate) fn operand<V: ValueStore>(table: &V, h: u64) -> Result<Shape<'_>, Fault>
    ensures sees { Sees result (slice_get (V.values table.now) h) }
    ensures short { IfOk result (λ shape. seen_size (shape_view shape) < 2 ^ 63) }
    ensures inside { OnOk result (h < length (V.values table.now)) }
{
    table.at(h).ok_or(Fault::F6)
}

/// The bytes of a range of constants, or `F3` if one of them is outside.
#[tactic(auto, unfolding(guest_memory::specs::Access::constants_of, guest_memory::specs::Memory::start_memory))]
pub(crate) fn range<M: Regions>(memory: &M, addr: u64, len: u64) -> Result<&[u8], Fault>
    ensures { let lent = bytes_at (M.bytes memory.now).constants addr len in MatchResult result (λ bytes. lent ≡ Some bytes.now) (λ f. (f ≡ F3) × (lent ≡ None)) }
{
    memory.constants(addr, len).ok_or(Fault::F3)
}

/// Whether the value at a reference is a map.
pub(crate) fn is_map<V: ValueStore>(table: &V, h: u64) -> bool
    ensures { result ≡ is_some (entries_at (slice_get (V.values table.now) h)) }
{
    matches!(table.at(h), Some(Shape::Map(_)))
}

/// The position that an int denotes, if the operand is one.
pub(crate) fn place_part(shape: Shape<'_>) -> Option<u64>
    ensures { result ≡ place_part (shape_view shape.entry) }
{
    match shape {
        Shape::Int(i) => place_of(i),
        _ => None,
    }
}

/// The position in a list; `None` if negative.
pub(crate) fn place_of(i: i64) -> Option<u64>
    ensures { result ≡ place_of i }
{
    if i >= 0 { Some(i as u64) } else { None }
}

/// Whether this is a value, not the error.
pub(crate) fn is_value(shape: Shape<'_>) -> bool
    ensures { result ≡ is_value (shape_view shape.entry) }
{
    !matches!(shape, Shape::Error)
}
