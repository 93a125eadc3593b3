//! Policies as they run on a request.

use crate::case::Case;
use admission::Gate;
use cluster_state::Policy;
use std::alloc::Global;

/// A policy that is asked about a request.
#[derive(Drop)]
pub(crate) struct PolicyRun<'p, 'g, 'c, 'x, 's> {
    pub(crate) alloc: Global,
    pub(crate) policy: &'p Policy<'s>,
    pub(crate) gate: &'g Gate,
    pub(crate) case: &'c Case<'c, 'x, 's>,
}
