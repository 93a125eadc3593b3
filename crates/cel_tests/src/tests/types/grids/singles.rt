//! The results of forms with one operand.

use crate::tests::types::grids::Line;

/// The texts before an operand and after it, and the results.
pub(crate) const SINGLES: [(&str, &str, Line); 13] = [
    ("!", "", b"B-----B"),
    ("-(", ")", b"-I----I"),
    ("", ".f", b"-----DD"),
    ("has(", ".f)", b"-----BB"),
    ("size(", ")", b"--I-III"),
    ("", ".size()", b"--I-III"),
    ("string(", ")", b"-SS---S"),
    ("dyn(", ")", b"DDDDDDD"),
    ("", " ? 1 : 2", b"I-----I"),
    ("", ".string()", b"-------"),
    ("", ".dyn()", b"-------"),
    ("contains(", ")", b"-------"),
    ("f(", ")", b"-------"),
];
