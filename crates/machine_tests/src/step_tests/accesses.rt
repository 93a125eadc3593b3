//! Loads and stores, and their faults.

use super::{EXIT, answer, answers, wide};
use bpf_machine::Status;
use guest_memory::Fault;
use std::alloc::Global;

/// R1 = 0x2_0000_0000, the base of scratch, and R2 = 0xf0e1_d2c3_b4a5_9687, by two wide loads.
const ADDRESS: [u64; 2] = [0x1801_0000_0000_0000, 0x0000_0000_0200_0000];

const WORD: [u64; 2] = [0x1802_0000_8796_a5b4, 0x0000_0000_c3d2_e1f0];

/// The bytes from the base of scratch on are 87 96 a5 b4 c3 d2 e1 f0, then zeros; each load reads some of
/// them into R0, at the address in R1 plus an offset.
const LOADS: [(u64, u64); 10] = [
    (0x7110_0100_0000_0000, 0x96),
    (0x6910_0200_0000_0000, 0xb4a5),
    (0x6110_0300_0000_0000, 0xe1d2_c3b4),
    (0x7910_0100_0000_0000, 0x00f0_e1d2_c3b4_a596),
    (0x9110_0100_0000_0000, 0xffff_ffff_ffff_ff96),
    (0x9110_0800_0000_0000, 0),
    (0x8910_0200_0000_0000, 0xffff_ffff_ffff_b4a5),
    (0x8910_0700_0000_0000, 0x00f0),
    (0x8110_0300_0000_0000, 0xffff_ffff_e1d2_c3b4),
    (0x8110_0500_0000_0000, 0x00f0_e1d2),
];

fn loads_word(alloc: Global, load: u64, r0: u64) -> bool {
    let [address, high_address] = ADDRESS;
    let [word, high_word] = WORD;
    let store = 0x7b21_0000_0000_0000;
    let slots = [address, high_address, word, high_word, store, load, EXIT];
    answers(alloc, &slots, (5, Status::Exited(r0)))
}

#[test]
fn loads(rt: HostRuntime) {
    for &(load, r0) in &LOADS {
        assert!(rt; loads_word(rt.alloc(), load, r0), "slot {load:016x}");
    }
}

/// At the base of scratch, in R1, are eight bytes ff; each store writes some of them, from R2
/// or an immediate, and a load reads all eight.
const STORES: [(u64, u64); 10] = [
    (0x7201_0100_feff_ffff, 0xffff_ffff_ffff_feff),
    (0x6a01_0200_3412_0000, 0xffff_ffff_1234_ffff),
    (0x6201_0400_0500_0000, 0x0000_0005_ffff_ffff),
    (0x7a01_0000_fdff_ffff, 0xffff_ffff_ffff_fffd),
    (0x7a01_0000_0700_0000, 0x0000_0000_0000_0007),
    (0x7321_0700_0000_0000, 0x87ff_ffff_ffff_ffff),
    (0x6b21_0600_0000_0000, 0x9687_ffff_ffff_ffff),
    (0x6321_0300_0000_0000, 0xffb4_a596_87ff_ffff),
    (0x7b21_0000_0000_0000, 0xf0e1_d2c3_b4a5_9687),
    (0x7b21_0800_0000_0000, 0xffff_ffff_ffff_ffff),
];

fn stores_word(alloc: Global, store: u64, r0: u64) -> bool {
    let [address, high_address] = ADDRESS;
    let [word, high_word] = WORD;
    let ones = 0x7a01_0000_ffff_ffff;
    let load = 0x7910_0000_0000_0000;
    let slots = [
        address,
        high_address,
        word,
        high_word,
        ones,
        store,
        load,
        EXIT,
    ];
    answers(alloc, &slots, (6, Status::Exited(r0)))
}

#[test]
fn stores(rt: HostRuntime) {
    for &(store, r0) in &STORES {
        assert!(rt; stores_word(rt.alloc(), store, r0), "slot {store:016x}");
    }
}

/// An address in R1, the access, the constants, and the fault, if any.
const BOUNDS: [(u64, u64, &[u8], Option<Fault>); 14] = [
    (0x3_0000_0000, 0x7b21_f807_0000_0000, b"", None),
    (0x3_0000_0000, 0x7b21_f907_0000_0000, b"", Some(Fault::F3)),
    (0x4_0000_0000, 0x7201_0000_0000_0000, b"\0", Some(Fault::F4)),
    (0x4_0000_0000, 0x7201_0000_0000_0000, b"", Some(Fault::F3)),
    (0x4_0000_0000, 0x6a01_0000_0000_0000, b"\0", Some(Fault::F3)),
    (0x4_0000_0000, 0x7110_0000_0000_0000, b"\0", None),
    (0x4_0000_0000, 0x7110_0100_0000_0000, b"\0", Some(Fault::F3)),
    (u64::MAX, 0x7910_0000_0000_0000, b"", Some(Fault::F3)),
    (u64::MAX, 0x7110_0100_0000_0000, b"", Some(Fault::F3)),
    (0x1_0000_0000, 0x7910_ffff_0000_0000, b"", Some(Fault::F3)),
    (0x1_0000_0ff8, 0x7910_0000_0000_0000, b"", None),
    (0x1_0000_0ff9, 0x7910_0000_0000_0000, b"", Some(Fault::F3)),
    (0x2_0000_0fff, 0x7321_0000_0000_0000, b"", None),
    (0x2_0000_0fff, 0x6b21_0000_0000_0000, b"", Some(Fault::F3)),
];

/// The result of a run of the access, after a wide load of its address, and an exit.
fn access_answer(
    alloc: Global,
    address: u64,
    access: u64,
    constants: &[u8],
) -> Option<(u64, Status)> {
    let [low, high] = wide(1, address);
    answer(alloc, &[low, high, access, EXIT], constants)
}

/// The result if the access ends with this fault, or without one.
fn expected_answer(fault: Option<Fault>) -> (u64, Status) {
    match fault {
        None => (3, Status::Exited(0)),
        Some(fault) => (2, Status::Fault(fault)),
    }
}

#[test]
fn bounds(rt: HostRuntime) {
    for (row, (address, access, constants, fault)) in BOUNDS.iter().enumerate() {
        let answer = access_answer(rt.alloc(), *address, *access, constants);
        assert!(rt; answer == Some(expected_answer(*fault)), "row {row}");
    }
}
