//! Policies with their gates.

use crate::standing::Standing;
use admission::LeftOut;
use cluster_plan::AskedPolicy;

/// A bound policy, and whether it is asked.
#[derive(Drop)]
pub struct PolicyGate<'s, 'a> {
    pub asked: AskedPolicy<'s, 'a>,
    pub standing: Standing,
    /// The message expressions that are left out of the policy, in order.
    pub left_out: Vec<LeftOut>,
}
