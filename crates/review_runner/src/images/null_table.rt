//! The values for an image that runs without a review.
ghost use Rattle.std.specs.Prelude.{◌≡◌, IfOk};
ghost use Rattle.value_table.specs.Held.{held_contents};
ghost use Rattle.bpf_machine.specs.State.{null_values};

use serde_json::Value;
use std::alloc::{AllocError, Global};
use value_store::{TableError, ValueStore};
use value_table::Table;

/// The table of five null roots.
#[tactic(auto, unfolding(bpf_machine::specs::State::null_values))]
pub fn null_table(alloc: Global) -> Result<Table, AllocError>
    ensures { IfOk result (λ t. held_contents t ≡ null_values) }
{
    let roots = [
        Value::Null,
        Value::Null,
        Value::Null,
        Value::Null,
        Value::Null,
    ];
    match Table::of_roots(alloc, &roots) {
        Ok(table) => Ok(table),
        Err(TableError::Memory) => Err(AllocError),
        Err(_) => unreachable!(),
    }
}
