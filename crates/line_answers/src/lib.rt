//! Answers the lines of an input, each by itself and before the next is read. A `Decider` decides a
//! line. `answer_lines` is the loop; `answer_and_tell` is the loop that also reports refused lines.
#![tactic(auto)]

mod answering;
mod decider;
mod limits;
mod line;
mod line_rules;
pub mod rows;
mod teller;
mod telling;

pub use answering::answer_lines;
pub use decider::Decider;
pub use line_rules::LineRules;
pub use telling::answer_and_tell;
