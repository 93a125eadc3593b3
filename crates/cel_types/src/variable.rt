//! Variables of a scope.

use crate::cel_type::CelType;

/// A variable that an expression may use.
#[derive(Debug, Drop)]
pub struct Variable {
    pub name: String,
    pub cel_type: CelType,
    /// One more than the greatest depth of the variables that its expression uses.
    pub depth: u64,
}
