//! Builds the map of tables and params from the values of a table.

ghost use Rattle.std.specs.Prelude.{◌≡◌, ◌<◌, ◌^◌, Some, IfSome, IsSome, slice_get};
ghost use Rattle.value_store.specs.Calls.{put_in, value_at};
ghost use Rattle.value_store.specs.Lookup.{inserted};
ghost use Rattle.value_store.specs.Value.{Entries, Value, list, map, items_of, text, value};
ghost use Rattle.wide_indices.specs.Tables.{index_tables};
ghost use Rattle.wide_tables.specs.Building.{AddsTabled};
ghost use Rattle.wide_translation.specs.Indexed.{ints_from};
ghost use Rattle.wide_translation.specs.Placed.{with_tables};

use std::alloc::AllocError;
use value_store::ValueStore;
use value_table::Table;

/// AddsTabled the list 0, 1, .. of `count` ints.
fn add_indices(table: &mut Table, count: u64) -> Result<u64, AllocError>
    requires { count < 2 ^ 63 }
    ensures { AddsTabled table.old table.new result (list (items_of (ints_from 0 count))) }
{
    let mut indices = table.new_list()?;
    for i in 0..count {
        let index = table.place_int(i as i64)?;
        indices = table.push(indices, index)?;
    }
    Ok(indices)
}

/// AddsTabled a map with one more entry.
fn add_entry(table: &mut Table, entries: u64, key: &str, of: u64) -> Result<u64, AllocError>
    requires entries { IsSome (slice_get table.old.values entries) }
    requires of { IsSome (slice_get table.old.values of) }
    requires fits { IsSome (put_in (slice_get table.old.values entries) (Some (value (text key.now))) (slice_get table.old.values of)) }
    ensures { (es : Entries) (v : Value) → slice_get table.old.values entries ≡ Some (value (map es)) → slice_get table.old.values of ≡ Some (value v)
        → IfSome (inserted key.now v es) (λ w. AddsTabled table.old table.new result (map w)) }
{
    let name = table.place_text(key)?;
    table.put(entries, name, of)
}

/// AddsTabled the map `{"t": {"n": [0, 1, ..]}, "v": params}` with `count` ints.
pub(crate) fn add_wrapped(table: &mut Table, count: u64, params: u64) -> Result<u64, AllocError>
    requires count { count < 2 ^ 63 }
    requires params { IsSome (value_at (slice_get table.old.values params)) }
    ensures { (p : Value) → slice_get table.old.values params ≡ Some (value p) → AddsTabled table.old table.new result (with_tables (index_tables count) p) }
{
    let indices = add_indices(table, count)?;
    let empty = table.new_map()?;
    let tables = add_entry(table, empty, "n", indices)?;
    let outer = add_entry(table, empty, "t", tables)?;
    add_entry(table, outer, "v", params)
}
