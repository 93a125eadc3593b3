//! Whether policies are asked.

use crate::block_cause::BlockCause;
use admission::Gate;

/// Whether a policy is asked.
#[derive(Drop)]
pub enum Standing {
    Asked(Gate),
    Blocked(BlockCause),
}
