//! The results of tests of texts.

use crate::tests::types::grids::Grid;

/// Tests of texts.
#[rattlefmt::skip]
pub(crate) const TESTED: Grid = [
    b"-------",
    b"-------",
    b"--B---B",
    b"-------",
    b"-------",
    b"-------",
    b"--B---B",
];
