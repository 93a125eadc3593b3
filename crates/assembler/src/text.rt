//! Parses the parts of a line.

pub(crate) mod affixes;
pub(crate) mod cuts;
pub(crate) mod names;
pub(crate) mod numerals;
pub(crate) mod operands;
pub(crate) mod places;
pub(crate) mod ranges;
pub(crate) mod registers;
pub(crate) mod shapes;
pub(crate) mod targets;
pub(crate) mod words;
