//! Why a request is denied, in the words of the API.

pub use verdicts::Reason;
