//! The results of macros.

use crate::tests::types::grids::Grid;

/// A range and a predicate of a macro that returns a bool.
#[rattlefmt::skip]
pub(crate) const QUANTIFIED: Grid = [
    b"-------",
    b"-------",
    b"-------",
    b"-------",
    b"B-----B",
    b"B-----B",
    b"B-----B",
];

/// A range and a predicate of a macro that returns a list.
#[rattlefmt::skip]
pub(crate) const SELECTED: Grid = [
    b"-------",
    b"-------",
    b"-------",
    b"-------",
    b"L-----L",
    b"L-----L",
    b"L-----L",
];

/// A range and a transform.
#[rattlefmt::skip]
pub(crate) const MAPPED: Grid = [
    b"-------",
    b"-------",
    b"-------",
    b"-------",
    b"LLLLLLL",
    b"LLLLLLL",
    b"LLLLLLL",
];
