//! What a policy of a cluster does with a request, step by step, before an expression is evaluated.
#![tactic(auto)]

mod asked_policy;
mod quotes;
pub mod rows;
mod step;
mod steps;

pub use asked_policy::AskedPolicy;
pub use quotes::go_quoted;
pub use step::Step;
pub use steps::{absent_text, trouble_text};
