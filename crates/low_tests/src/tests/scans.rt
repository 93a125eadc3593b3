//! Scans of text at every length and position.

use text_kernels::{code_points, first_difference, skip_plain};

const SIZE: usize = 200;

// Different bytes in a mixed order, including the ends of 0x80..=0xbf, every special byte and its neighbours.
fn mixed() -> [u8; SIZE] {
    let mut bytes = [0; SIZE];
    let mut byte: u8 = 1;
    for place in 0..SIZE {
        bytes[place] = byte;
        byte = byte.wrapping_add(59);
    }
    bytes
}

/// At each length, compared with a count byte by byte.
#[test]
fn counts_at_each_length(rt: HostRuntime) {
    let bytes = mixed();
    let mut expected = 0;
    for length in 0..SIZE {
        assert!(rt;
            code_points(&bytes[..length]) == expected,
            "length {length}"
        );
        if !matches!(bytes[length], 0x80..=0xbf) {
            expected += 1;
        }
    }
    assert!(rt; code_points(&bytes) == expected);
}

/// One byte differs, at each position, and either side has each length.
#[test]
fn differs_at_each_place(rt: HostRuntime) {
    let left = mixed();
    for place in 0..SIZE {
        let mut right = left;
        right[place] ^= 0x80;
        for length in 0..=SIZE {
            let expected = if place < length { place } else { length };
            let is_left = first_difference(&left[..length], &right) == expected;
            let is_right = first_difference(&left, &right[..length]) == expected;
            assert!(rt; is_left && is_right, "place {place}, length {length}");
        }
    }
}

/// One byte is special, at each position, in a text of each length.
#[test]
fn stops_at_each_place(rt: HostRuntime) {
    let specials = [b'"', b'\'', b'\\', b'\n', b'\r'];
    for place in 0..SIZE {
        let mut bytes = [b'a'; SIZE];
        bytes[place] = specials[place % 5];
        for length in 0..=SIZE {
            let expected = if place < length { place } else { length };
            assert!(rt;
                skip_plain(&bytes[..length]) == expected,
                "place {place}, length {length}"
            );
        }
    }
}

// The number of bytes before the first special one, by a byte-by-byte search.
fn plain_before(bytes: &[u8]) -> usize {
    for (place, byte) in bytes.iter().enumerate() {
        if matches!(byte, 10 | 13 | 34 | 39 | 92) {
            return place;
        }
    }
    bytes.len()
}

/// From each start, among bytes of every kind.
#[test]
fn stops_among_mixed_bytes(rt: HostRuntime) {
    let bytes = mixed();
    for from in 0..=SIZE {
        let rest = &bytes[from..];
        assert!(rt; skip_plain(rest) == plain_before(rest), "from {from}");
    }
}

/// Bytes, and the number of characters that begin in them.
const COUNTED: [(&[u8], usize); 4] = [
    (b"", 0),
    (&[0x80; 33], 0),
    (&[0xbf; 64], 0),
    // aé€😀
    (b"a\xc3\xa9\xe2\x82\xac\xf0\x9f\x98\x80", 4),
];

/// Bytes, others, and the first position at which they differ.
const DIFFERENT: [(&[u8], &[u8], usize); 3] = [
    (b"", b"", 0),
    (b"", b"a", 0),
    (b"equal", b"equal", 5),
];

/// Bytes, and the position of the first special one.
const SKIPPED: [(&[u8], usize); 3] = [(b"", 0), (b"plain text`", 11), (b"it's", 2)];

/// The position at which zeros differ from 64 bytes of which only the last is not zero.
fn first_of_zeros(zeros: &[u8]) -> usize {
    let mut last = [0; 64];
    last[63] = 1;
    first_difference(zeros, &last)
}

#[test]
fn edges(rt: HostRuntime) {
    for (bytes, expected) in &COUNTED {
        assert!(rt; code_points(bytes) == *expected, "{bytes:?}");
    }
    for (left, right, expected) in &DIFFERENT {
        assert!(rt; first_difference(left, right) == *expected, "{left:?}");
    }
    assert!(rt; first_of_zeros(&[0; 64]) == 63);
    assert!(rt; first_of_zeros(&[0; 63]) == 63);
    for (bytes, expected) in &SKIPPED {
        assert!(rt; skip_plain(bytes) == *expected, "{bytes:?}");
    }
}
