//! A quantity as it is spelled.
use crate::unit::Unit;

/// The parts of a quantity in a text. Either list of digits may be empty.
#[derive(Clone, Copy, Debug)]
pub struct Spelled<'t> {
    /// Whether the text begins with a minus.
    pub minus: bool,
    /// The decimal digits before the point.
    pub whole: &'t [u8],
    /// The decimal digits after the point.
    pub fraction: &'t [u8],
    /// The unit of the suffix.
    pub unit: Unit,
}
