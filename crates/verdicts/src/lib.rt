//! Policies as documents state them, the verdicts that their programs leave, and what is told of a verdict.
#![tactic(auto)]

mod denial;
mod denials;
mod documents;
mod escaping;
mod failure_policy;
mod finding;
mod finding_message;
mod findings;
mod name_rule;
mod named_expression;
mod named_list;
mod outcome;
mod parts;
mod policy;
mod policy_error;
mod reading;
mod reason;
pub mod refusal_codes;
mod rejecting;
mod rejection;
mod response;
mod validation;
mod validations;
mod verdict;
pub mod verdict_words;

pub use failure_policy::FailurePolicy;
pub use finding::Finding;
pub use findings::{findings_left, findings_of};
pub use name_rule::NameRule;
pub use named_expression::NamedExpression;
pub use outcome::Outcome;
pub use parts::Parts;
pub use policy::Policy;
pub use policy_error::PolicyError;
pub use reason::Reason;
pub use rejecting::{rejection_left, rejection_of};
pub use rejection::Rejection;
pub use response::{into_response_text, respond, response_text};
pub use validation::Validation;
pub use verdict::Verdict;
