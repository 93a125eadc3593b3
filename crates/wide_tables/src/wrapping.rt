//! Tables of roots with a table of indices beside the params.

ghost use Rattle.std.specs.Prelude.{◌≡◌, ◌++◌, map, true};
ghost use Rattle.value_store.specs.Placing.{first_values};
ghost use Rattle.value_store.specs.Value.{value};
ghost use Rattle.value_table.specs.Held.{held_contents};
ghost use Rattle.cel_macros.specs.Environment.{Roots};
ghost use Rattle.wide_indices.specs.Tables as tables;
ghost use Rattle.wide_tables.specs.Wrapping.{contents_of, have_roots, is_value_at, root_values, wrapped_roots, WrapReturns};

use crate::building::add_wrapped;
use crate::wrap_error::WrapError;
use value_store::{CHARGE_LIMIT, Shape, ValueStore};
use value_table::Table;

/// The least length of a table of indices: the greatest number of items that a literal may have.
const LITERAL_LIMIT: u64 = 16;

/// The charge of the maps, the list and the keys around the indices and the params.
const FRAME_CHARGE: u64 = 9;

/// The reference of the params.
const PARAMS: u64 = 6;

/// The table of the same roots with `{"t": {"n": [0, 1, ..]}, "v": params}` for the params. There are as many indices
/// as the largest list or map in a root has items or entries, and at least 16. For a table that has other values than
/// those of five roots the contract states nothing.
///
/// # Errors
///
/// `TooLarge` if the charge of these roots exceeds the limit. `NoRoots` if the table has not the values of five roots.
/// `Memory` if an allocation fails.
pub fn wrapped(table: Table) -> Result<Table, WrapError>
    ensures { (r : Roots) → held_contents table ≡ contents_of r → WrapReturns (contents_of (wrapped_roots r)) result }
{
    let mut table = table;
    if !has_roots(&table) {
        return Err(WrapError::NoRoots);
    }
    let count = table_length(&table);
    let sum = table.charge().saturating_add(count);
    let charge = sum.saturating_add(FRAME_CHARGE);
    if charge > CHARGE_LIMIT {
        return Err(WrapError::TooLarge);
    }
    let params = add_wrapped(&mut table, count, PARAMS)?;
    Ok(table.rooted(&[4, 5, params, 7, 8], charge)?)
}

/// Whether the references of the roots have values.
fn has_roots(table: &Table) -> bool
    ensures { result ≡ have_roots table.now.values }
{
    is_value(table, 4)
        && is_value(table, 5)
        && is_value(table, 6)
        && is_value(table, 7)
        && is_value(table, 8)
}

/// Whether a reference has a value.
fn is_value(table: &Table, h: u64) -> bool
    ensures { result ≡ is_value_at table.now.values h }
{
    match table.at(h) {
        None | Some(Shape::Error) => false,
        Some(_) => true,
    }
}

/// How long the table of indices has to be for the roots.
fn table_length(table: &Table) -> u64
    requires { have_roots table.now.values ≡ true }
    ensures { (r : Roots) → table.now.values ≡ first_values ++ map value (root_values r) → result ≡ tables.table_length r }
{
    let others = table.width(7).max(table.width(8));
    let later = table.width(5).max(table.width(6).max(others));
    LITERAL_LIMIT.max(table.width(4).max(later))
}
