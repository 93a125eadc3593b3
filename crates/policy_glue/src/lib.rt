//! Compiles admission policies (Kubernetes, ValidatingAdmissionPolicy), and passes on what `verdicts` tells of them.
#![tactic(auto)]

mod checking;
mod compile_error;
mod compiling;
mod expression_error;
pub mod failure_policy;
pub mod finding;
mod judging;
pub mod laws;
pub mod name_rule;
pub mod named_expression;
mod naming;
pub mod outcome;
mod part_kind;
pub mod parts;
pub mod policy_error;
pub mod reason;
pub mod rejection;
pub mod validation;

pub use cel_macros::MacroError;
pub use cel_reader::ReadError;
pub use cel_types::TypeError;
pub use compile_error::CompileError;
pub use compiling::compile;
pub use expression_error::ExpressionError;
pub use failure_policy::FailurePolicy;
pub use finding::Finding;
pub use json_fields::parse_document;
pub use named_expression::NamedExpression;
pub use naming::conditions_name_namespace;
pub use outcome::Outcome;
pub use part_kind::PartKind;
pub use parts::Parts;
pub use policy_error::PolicyError;
pub use reason::Reason;
pub use rejection::Rejection;
pub use validation::Validation;
pub use verdicts::{
    Policy, Verdict, findings_left, findings_of, into_response_text, rejection_left, rejection_of,
    respond, response_text,
};
