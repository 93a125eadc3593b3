//! The two passes: the first parses the lines and finds the labels' slots, the second writes the bytes.

pub(crate) mod cutting;
pub(crate) mod emit;
pub(crate) mod labels;
pub(crate) mod offset;
pub(crate) mod scan;
