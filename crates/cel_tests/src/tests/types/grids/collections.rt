//! The results of membership, indices and map entries.

use crate::tests::types::grids::Grid;

/// Membership.
#[rattlefmt::skip]
pub(crate) const MEMBERS: Grid = [
    b"----B-B",
    b"----B-B",
    b"----BBB",
    b"----B-B",
    b"----B-B",
    b"----B-B",
    b"----BBB",
];

/// Indices.
#[rattlefmt::skip]
pub(crate) const INDEXED: Grid = [
    b"-------",
    b"-------",
    b"-------",
    b"-------",
    b"-D----D",
    b"--D---D",
    b"-DD---D",
];

/// A key and its value.
#[rattlefmt::skip]
pub(crate) const PAIRED: Grid = [
    b"-------",
    b"-------",
    b"MMMMMMM",
    b"-------",
    b"-------",
    b"-------",
    b"MMMMMMM",
];
