//! The results of sums, arithmetic, equality and order.

use crate::tests::types::grids::Grid;

/// Sums.
#[rattlefmt::skip]
pub(crate) const JOINED: Grid = [
    b"-------",
    b"-I----I",
    b"--S---S",
    b"-------",
    b"----L-L",
    b"-------",
    b"-IS-L-D",
];

/// Differences, products, quotients and remainders.
#[rattlefmt::skip]
pub(crate) const COMPUTED: Grid = [
    b"-------",
    b"-I----I",
    b"-------",
    b"-------",
    b"-------",
    b"-------",
    b"-I----I",
];

/// Equality.
#[rattlefmt::skip]
pub(crate) const EQUAL: Grid = [
    b"B-----B",
    b"-B----B",
    b"--B---B",
    b"---B--B",
    b"----B-B",
    b"-----BB",
    b"BBBBBBB",
];

/// Order.
#[rattlefmt::skip]
pub(crate) const ORDERED: Grid = [
    b"B-----B",
    b"-B----B",
    b"--B---B",
    b"-------",
    b"-------",
    b"-------",
    b"BBB---B",
];
