//! Decides reviews under compiled policies. `Gate` is a policy with its program, `review` decides a
//! review under a policy's document, and `roots` gives the values of a review.
#![tactic(auto)]

mod decision;
mod gate;
mod language;
pub mod laws;
mod limits;
mod policy_and_image;
mod policy_refusal;
mod reply;
mod reviewing;
mod root_values;
pub mod rows;
mod run_error;
mod wide_gate;
mod wide_refusal;

pub use decision::Decision;
pub use gate::Gate;
pub use language::Language;
pub use limits::Limits;
pub use policy_and_image::{PolicyAndImage, compile_document};
pub use policy_glue::{Finding, Reason};
pub use policy_refusal::PolicyRefusal;
pub use reply::Reply;
pub use reviewing::review;
pub use root_values::roots;
pub use run_error::RunError;
pub use wide_gate::WideGate;
pub use wide_policy::{LeftOut, MessageRule};
pub use wide_refusal::WideRefusal;
