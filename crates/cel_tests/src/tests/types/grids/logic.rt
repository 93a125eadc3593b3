//! The results of logic and conditionals.

use crate::tests::types::grids::Grid;

/// Logic.
#[rattlefmt::skip]
pub(crate) const JUDGED: Grid = [
    b"B-----B",
    b"-------",
    b"-------",
    b"-------",
    b"-------",
    b"-------",
    b"B-----B",
];

/// The branches of a conditional.
#[rattlefmt::skip]
pub(crate) const BRANCHES: Grid = [
    b"B-----D",
    b"-I----D",
    b"--S---D",
    b"---N--D",
    b"----L-D",
    b"-----MD",
    b"DDDDDDD",
];
