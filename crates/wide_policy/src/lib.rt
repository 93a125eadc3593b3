//! Policies as clusters store them: read in the wide language, and translated into policies that are compiled.
#![tactic(auto)]

mod depth;
mod expression;
mod expression_error;
mod fields;
mod laws;
mod left_out;
mod message_rule;
mod named;
mod normal;
mod part_scope;
mod policy;
mod source;
mod tabling;
mod taken_lists;
mod taken_message;
mod taken_pair;
mod validations;
mod wide_policy_error;

pub use expression_error::WideExpressionError;
pub use laws::{carried_policy_decides, document_rows_hold, one_wide_policy, wide_policies_decide};
pub use left_out::LeftOut;
pub use message_rule::MessageRule;
pub use policy::WidePolicy;
pub use wide_policy_error::WidePolicyError;
