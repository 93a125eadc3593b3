//! How a run within limits ended: with an exit, or why without one.
#![tactic(auto)]

mod exiting;
mod no_exit;

pub use exiting::has_exited;
pub use no_exit::NoExit;
