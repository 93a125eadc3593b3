//! Lines of atomic instructions and their slots, worked out by hand from the table of operations.

/// A line of each operation at each width, with its slot's bytes in storage order.
pub const ROWS: [(&str, u64); 20] = [
    ("atomic_add32 [r1+4], r2", 0xc321_0400_0000_0000),
    ("atomic_add64 [r10-8], r1", 0xdb1a_f8ff_0000_0000),
    ("atomic_or32 [r1+4], r2", 0xc321_0400_4000_0000),
    ("atomic_or64 [r10-8], r1", 0xdb1a_f8ff_4000_0000),
    ("atomic_and32 [r1+4], r2", 0xc321_0400_5000_0000),
    ("atomic_and64 [r10-8], r1", 0xdb1a_f8ff_5000_0000),
    ("atomic_xor32 [r1+4], r2", 0xc321_0400_a000_0000),
    ("atomic_xor64 [r10-8], r1", 0xdb1a_f8ff_a000_0000),
    ("atomic_fetch_add32 [r1+4], r2", 0xc321_0400_0100_0000),
    ("atomic_fetch_add64 [r10-8], r1", 0xdb1a_f8ff_0100_0000),
    ("atomic_fetch_or32 [r1+4], r2", 0xc321_0400_4100_0000),
    ("atomic_fetch_or64 [r10-8], r1", 0xdb1a_f8ff_4100_0000),
    ("atomic_fetch_and32 [r1+4], r2", 0xc321_0400_5100_0000),
    ("atomic_fetch_and64 [r10-8], r1", 0xdb1a_f8ff_5100_0000),
    ("atomic_fetch_xor32 [r1+4], r2", 0xc321_0400_a100_0000),
    ("atomic_fetch_xor64 [r10-8], r1", 0xdb1a_f8ff_a100_0000),
    ("atomic_xchg32 [r1+4], r2", 0xc321_0400_e100_0000),
    ("atomic_xchg64 [r10-8], r1", 0xdb1a_f8ff_e100_0000),
    ("atomic_cmpxchg32 [r1+4], r2", 0xc321_0400_f100_0000),
    ("atomic_cmpxchg64 [r10-8], r1", 0xdb1a_f8ff_f100_0000),
];
