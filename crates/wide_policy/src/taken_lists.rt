//! Lists of validations that are translated.

use crate::left_out::LeftOut;
use policy_glue::Validation;

/// The validations with the texts of their author, and with those of the translations.
#[derive(Debug, Drop)]
pub struct TakenLists {
    pub source: Vec<Validation>,
    pub profile: Vec<Validation>,
    /// The message expressions that are left out.
    pub left_out: Vec<LeftOut>,
}
