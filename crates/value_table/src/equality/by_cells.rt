//! Whether two values are equal, as far as their cells tell.

ghost use Rattle.std.specs.Prelude.{◌≡◌, ℕ, List, slice_get, Some, IfSome};
ghost use Rattle.value_store.specs.Value.{Value};
ghost use Rattle.value_store.specs.Equality.{equal};
ghost use Rattle.value_table.specs.Meaning.{value_in};
ghost use Rattle.value_table.specs.Equality.{AreContents};
ghost use Rattle.value_table.specs.Known.{AreKnown};
ghost use Rattle.value_table.specs.Heads.{IsReadable};

use crate::cell::Cell;
use crate::equality::alike::alike;
use crate::equality::walk::parts_of;
use value_backings::Backings;

/// Whether two values are equal, if their cells tell it: their JSON texts differ in length, or the left one has no
/// parts.
pub(crate) fn equal_by_cells(backings: &Backings, left: Cell, right: Cell) -> Option<bool>
    requires left { IsReadable backings.now left.content }
    requires right { IsReadable backings.now right.content }
    ensures { (vs : List Value) (cs : List Cell) (a b : ℕ) → AreContents backings.now cs → AreKnown backings.now vs cs
        → slice_get cs a ≡ Some left → slice_get cs b ≡ Some right → IfSome result (λ answer. answer ≡ equal (value_in vs a) (value_in vs b)) }
{
    if left.json != right.json {
        return Some(false);
    }
    if parts_of(backings, left.content).is_empty() {
        return Some(alike(backings, left.content, right.content));
    }
    None
}
