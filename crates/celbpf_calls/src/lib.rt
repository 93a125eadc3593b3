//! The calls of the libraries for other languages: `celbpf_c` and `celbpf_page` export them.
#![tactic(auto)]

mod asked;
mod output;
mod statuses;
mod without_gate;

pub use asked::{Asked, given};
pub use output::{write_answer, write_done, write_refusal, write_wide_refusal};
pub use statuses::{policy_status, run_status, wide_status};
pub use without_gate::{compile, decide, decide_wide, interface_version};
