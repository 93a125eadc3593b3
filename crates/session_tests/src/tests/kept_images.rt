//! An image that an earlier version of `compile` made, and the same code as an image of version 1.

use super::assert_rows;
use super::talking::says;
use loader::Image;
use serde_json::Value;
use std::alloc::{AllocError, Global};
use value_table::Table;

/// The code that the first version of `compile` (commit 19774f53) made of a policy with the condition
/// `has(object.spec)`, the variable `n`, which is `object.spec.replicas`, and two validations: `variables.n
/// <= 3` with the message expression `string(variables.n)`, and `variables.n > 0`. Each slot is its bytes
/// in storage order, with its number and its line.
#[rattlefmt::skip]
const CODE: [u64; 134] = [
    0x0500_1300_0000_0000, // 0: ja +19
    0xb700_0000_0400_0000, // 1: mov64 r0, 4
    0xbf01_0000_0000_0000, // 2: mov64 r1, r0
    0x1802_0000_0000_0000, 0x0000_0000_0400_0000, // 3: lddw r2, 0x0000000400000000
    0x1803_0000_0400_0000, 0x0000_0000_0000_0000, // 5: lddw r3, 0x0000000000000004
    0x8500_0000_0500_0000, // 7: call 5
    0xbf01_0000_0000_0000, // 8: mov64 r1, r0
    0x1802_0000_0400_0000, 0x0000_0000_0400_0000, // 9: lddw r2, 0x0000000400000004
    0x1803_0000_0800_0000, 0x0000_0000_0000_0000, // 11: lddw r3, 0x0000000000000008
    0x8500_0000_0500_0000, // 13: call 5
    0xbf02_0000_0000_0000, // 14: mov64 r2, r0
    0x0702_0000_0100_0000, // 15: add64 r2, 1
    0x1801_0000_0000_0000, 0x0000_0000_0200_0000, // 16: lddw r1, 0x0000000200000000
    0x7b21_0000_0000_0000, // 18: stxdw [r1+0], r2
    0x9500_0000_0000_0000, // 19: exit
    0xb700_0000_0400_0000, // 20: mov64 r0, 4
    0xbf01_0000_0000_0000, // 21: mov64 r1, r0
    0x1802_0000_0000_0000, 0x0000_0000_0400_0000, // 22: lddw r2, 0x0000000400000000
    0x1803_0000_0400_0000, 0x0000_0000_0000_0000, // 24: lddw r3, 0x0000000000000004
    0x8500_0000_0600_0000, // 26: call 6
    0x1500_0800_0300_0000, // 27: jeq64 r0, 3, +8
    0xb702_0000_0200_0000, // 28: mov64 r2, 2
    0x1801_0000_0000_0000, 0x0000_0000_0300_0000, // 29: lddw r1, 0x0000000300000000
    0x5500_0300_0200_0000, // 31: jne64 r0, 2, +3
    0xb700_0000_0100_0000, // 32: mov64 r0, 1
    0x7b01_0000_0000_0000, // 33: stxdw [r1+0], r0
    0x9500_0000_0000_0000, // 34: exit
    0x7b21_0000_0000_0000, // 35: stxdw [r1+0], r2
    0x1801_0000_0000_0000, 0x0000_0000_0300_0000, // 36: lddw r1, 0x0000000300000000
    0x7910_0000_0000_0000, // 38: ldxdw r0, [r1+0]
    0x1500_0100_0000_0000, // 39: jeq64 r0, 0, +1
    0x9500_0000_0000_0000, // 40: exit
    0x1801_0000_0000_0000, 0x0000_0000_0200_0000, // 41: lddw r1, 0x0000000200000000
    0x7910_0000_0000_0000, // 43: ldxdw r0, [r1+0]
    0x0700_0000_ffff_ffff, // 44: add64 r0, -1
    0x5500_0100_ffff_ffff, // 45: jne64 r0, -1, +1
    0x8510_0000_d2ff_ffff, // 46: call_local -46
    0x7b0a_f8ff_0000_0000, // 47: stxdw [r10-8], r0
    0x1801_0000_0300_0000, 0x0000_0000_0000_0000, // 48: lddw r1, 0x0000000000000003
    0x8500_0000_0300_0000, // 50: call 3
    0xbf01_0000_0000_0000, // 51: mov64 r1, r0
    0x79a2_f8ff_0000_0000, // 52: ldxdw r2, [r10-8]
    0x8500_0000_0a00_0000, // 53: call 10
    0xbf01_0000_0000_0000, // 54: mov64 r1, r0
    0x8500_0000_1700_0000, // 55: call 23
    0x1801_0000_1000_0000, 0x0000_0000_0300_0000, // 56: lddw r1, 0x0000000300000010
    0xb702_0000_0000_0000, // 58: mov64 r2, 0
    0xb703_0000_0000_0000, // 59: mov64 r3, 0
    0x1500_0500_0300_0000, // 60: jeq64 r0, 3, +5
    0xb702_0000_0100_0000, // 61: mov64 r2, 1
    0xb703_0000_0100_0000, // 62: mov64 r3, 1
    0x1500_0200_0200_0000, // 63: jeq64 r0, 2, +2
    0xb702_0000_0200_0000, // 64: mov64 r2, 2
    0xb703_0000_0100_0000, // 65: mov64 r3, 1
    0x7b21_0000_0000_0000, // 66: stxdw [r1+0], r2
    0x1503_1a00_0000_0000, // 67: jeq64 r3, 0, +26
    0x1801_0000_0800_0000, 0x0000_0000_0300_0000, // 68: lddw r1, 0x0000000300000008
    0x7912_0000_0000_0000, // 70: ldxdw r2, [r1+0]
    0x0702_0000_0100_0000, // 71: add64 r2, 1
    0x7b21_0000_0000_0000, // 72: stxdw [r1+0], r2
    0x1801_0000_0000_0000, 0x0000_0000_0200_0000, // 73: lddw r1, 0x0000000200000000
    0x7910_0000_0000_0000, // 75: ldxdw r0, [r1+0]
    0x0700_0000_ffff_ffff, // 76: add64 r0, -1
    0x5500_0100_ffff_ffff, // 77: jne64 r0, -1, +1
    0x8510_0000_b2ff_ffff, // 78: call_local -78
    0xbf06_0000_0000_0000, // 79: mov64 r6, r0
    0xbf01_0000_0000_0000, // 80: mov64 r1, r0
    0x8500_0000_0100_0000, // 81: call 1
    0x5500_0200_0400_0000, // 82: jne64 r0, 4, +2
    0xbf60_0000_0000_0000, // 83: mov64 r0, r6
    0x0500_0200_0000_0000, // 84: ja +2
    0xbf61_0000_0000_0000, // 85: mov64 r1, r6
    0x8500_0000_1600_0000, // 86: call 22
    0xbf06_0000_0000_0000, // 87: mov64 r6, r0
    0xbf01_0000_0000_0000, // 88: mov64 r1, r0
    0x8500_0000_0100_0000, // 89: call 1
    0x5500_0300_0400_0000, // 90: jne64 r0, 4, +3
    0x1801_0000_1002_0000, 0x0000_0000_0300_0000, // 91: lddw r1, 0x0000000300000210
    0x7b61_0000_0000_0000, // 93: stxdw [r1+0], r6
    0x1801_0000_0000_0000, 0x0000_0000_0200_0000, // 94: lddw r1, 0x0000000200000000
    0x7910_0000_0000_0000, // 96: ldxdw r0, [r1+0]
    0x0700_0000_ffff_ffff, // 97: add64 r0, -1
    0x5500_0100_ffff_ffff, // 98: jne64 r0, -1, +1
    0x8510_0000_9dff_ffff, // 99: call_local -99
    0x7b0a_f8ff_0000_0000, // 100: stxdw [r10-8], r0
    0x1801_0000_0000_0000, 0x0000_0000_0000_0000, // 101: lddw r1, 0x0000000000000000
    0x8500_0000_0300_0000, // 103: call 3
    0xbf01_0000_0000_0000, // 104: mov64 r1, r0
    0x79a2_f8ff_0000_0000, // 105: ldxdw r2, [r10-8]
    0x8500_0000_0a00_0000, // 106: call 10
    0x1801_0000_1800_0000, 0x0000_0000_0300_0000, // 107: lddw r1, 0x0000000300000018
    0xb702_0000_0000_0000, // 109: mov64 r2, 0
    0xb703_0000_0000_0000, // 110: mov64 r3, 0
    0x1500_0500_0300_0000, // 111: jeq64 r0, 3, +5
    0xb702_0000_0100_0000, // 112: mov64 r2, 1
    0xb703_0000_0100_0000, // 113: mov64 r3, 1
    0x1500_0200_0200_0000, // 114: jeq64 r0, 2, +2
    0xb702_0000_0200_0000, // 115: mov64 r2, 2
    0xb703_0000_0100_0000, // 116: mov64 r3, 1
    0x7b21_0000_0000_0000, // 117: stxdw [r1+0], r2
    0x1503_0500_0000_0000, // 118: jeq64 r3, 0, +5
    0x1801_0000_0800_0000, 0x0000_0000_0300_0000, // 119: lddw r1, 0x0000000300000008
    0x7912_0000_0000_0000, // 121: ldxdw r2, [r1+0]
    0x0702_0000_0100_0000, // 122: add64 r2, 1
    0x7b21_0000_0000_0000, // 123: stxdw [r1+0], r2
    0x1801_0000_0800_0000, 0x0000_0000_0300_0000, // 124: lddw r1, 0x0000000300000008
    0x7912_0000_0000_0000, // 126: ldxdw r2, [r1+0]
    0xb700_0000_0400_0000, // 127: mov64 r0, 4
    0x1502_0100_0000_0000, // 128: jeq64 r2, 0, +1
    0xb700_0000_0300_0000, // 129: mov64 r0, 3
    0x1801_0000_0000_0000, 0x0000_0000_0300_0000, // 130: lddw r1, 0x0000000300000000
    0x7b01_0000_0000_0000, // 132: stxdw [r1+0], r0
    0x9500_0000_0000_0000, // 133: exit
];

/// Its constants: the names of two fields.
const CONSTANTS: &[u8] = b"specreplicas";

/// Appends the file of the image with this magic.
fn push_file(file: &mut Vec<u8>, magic: &[u8]) -> Result<(), AllocError> {
    file.extend_from_slice(magic)?;
    file.extend_from_slice(&[134, 0, 0, 0, 12, 0, 0, 0])?;
    for slot in &CODE {
        file.extend_from_slice(&slot.to_be_bytes())?;
    }
    file.extend_from_slice(CONSTANTS)
}

/// The image with this magic.
fn image(alloc: Global, magic: &[u8]) -> Option<Image> {
    let mut file = Vec::new(alloc);
    push_file(&mut file, magic).ok()?;
    Image::read(alloc, &file).ok()
}

/// The documents of a review with 5 replicas, if both could be read.
fn roots(object: Option<Value>, request: Option<Value>) -> Option<[Value; 5]> {
    let object = object?;
    let request = request?;
    Some([object, Value::Null, Value::Null, Value::Null, request])
}

/// The values of that review.
fn values(alloc: Global) -> Option<Table> {
    let object = Value::from_str(alloc, "{\"spec\":{\"replicas\":5}}").ok();
    let roots = roots(object, Value::from_str(alloc, "{\"uid\":\"u1\"}").ok())?;
    Table::of_roots(alloc, &roots).ok()
}

/// A run to the end, and three steps back.
const BACK: &[u8] = b"c 1000000\nw\nr\nrs 3\nw\nf\nl\n";

/// A magic, an input and the text that is written.
type Row = (&'static [u8], &'static [u8], &'static [u8]);

/// Images with inputs, and the text that is written. The texts for `BACK` follow from the lines of the code, whose
/// run has 90 steps: 10 up to slot 40, with the condition; 27 for the first comparison, 14 of them in the variable's
/// routine, slots 1 to 19; 13 for its result and the denial, up to slot 72; 16 for its message; 16 for the second
/// validation; 8 from slot 124 on. The values that it places have the references 9 (the map of `spec`), 10 (the int
/// 5), 11 (the int 3), 12 (the text of the message) and 13 (the int 0).
#[rattlefmt::skip]
const ROWS: [Row; 3] = [
    (
        b"CELBPF02",
        BACK,
        b"step 90 pc 133 exited 0x0000000000000003\nverdict 3 1\nvalidation 0 1\nmessage 0 12\nr0 0x0000000000000003\nr1 0x0000000300000000\nr2 0x0000000000000001\nr3 0x0000000000000000\nr4 0x0000000000000000\nr5 0x0000000000000000\nr6 0x000000000000000c\nr7 0x0000000000000000\nr8 0x0000000000000000\nr9 0x0000000000000000\nr10 0x0000000100000200\nstep 87 pc 130 running\nverdict 0 1\nvalidation 0 1\nmessage 0 12\ndepth 0\n130 lddw r1, 0x0000000300000000\n132 stxdw [r1+0], r0\n133 exit\n",
    ),
    // An image of version 1 has no words for messages.
    (
        b"CELBPF01",
        BACK,
        b"step 90 pc 133 exited 0x0000000000000003\nverdict 3 1\nvalidation 0 1\nr0 0x0000000000000003\nr1 0x0000000300000000\nr2 0x0000000000000001\nr3 0x0000000000000000\nr4 0x0000000000000000\nr5 0x0000000000000000\nr6 0x000000000000000c\nr7 0x0000000000000000\nr8 0x0000000000000000\nr9 0x0000000000000000\nr10 0x0000000100000200\nstep 87 pc 130 running\nverdict 0 1\nvalidation 0 1\ndepth 0\n130 lddw r1, 0x0000000300000000\n132 stxdw [r1+0], r0\n133 exit\n",
    ),
    (b"CELBPF02", b"v 4\nv 5\nv 8\nv 9\n", b"value 4 {\"spec\":{\"replicas\":5}}\nvalue 5 null\nvalue 8 {\"uid\":\"u1\"}\n? range\n"),
];

fn right_rows(alloc: Global) -> usize {
    for (place, &(magic, input, said)) in ROWS.iter().enumerate() {
        if !says(alloc, image(alloc, magic), values(alloc), input, said) {
            return place;
        }
    }
    3
}

#[test]
fn images_of_earlier_compilers_are_shown(rt: HostRuntime) {
    assert_rows(&rt, right_rows(rt.alloc()), 3);
}
