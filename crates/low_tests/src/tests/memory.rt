//! Loads and stores that are refused, and copies of a memory, each of which has stores of its own.

use Size::{B, Dw, H};
use guest_memory::{Fault, Guest, Regions, Size, WriteError};
use std::alloc::Global;
use std::test::Fail;

/// The memory at the start with these constants.
fn start(alloc: Global, constants: &[u8]) -> Result<Guest, Fail> {
    Ok(Guest::of_constants(alloc, constants)?)
}

/// Why a load is refused.
fn load_fault(guest: &Guest, addr: u64, size: Size) -> Option<Fault> {
    guest.read(addr, size).err()
}

/// Why a store is refused.
fn store_fault(mut guest: Guest, addr: u64, size: Size) -> Option<Fault> {
    match guest.write(addr, size, 1) {
        Err(WriteError::Fault(fault)) => Some(fault),
        Ok(()) | Err(WriteError::Memory) => None,
    }
}

/// Addresses, sizes, and why a load and a store are refused in a memory with nine constants.
#[rattlefmt::skip]
const REFUSED: [(u64, Size, Option<Fault>, Option<Fault>); 10] = [
    (0x0, B, Some(Fault::F3), Some(Fault::F3)),
    (0xffff_ffff, H, Some(Fault::F3), Some(Fault::F3)),
    (0x1_0000_0ff8, Dw, None, None),
    (0x1_0000_0ff9, Dw, Some(Fault::F3), Some(Fault::F3)),
    (0x2_0000_0fff, H, Some(Fault::F3), Some(Fault::F3)),
    (0x3_0000_07f8, Dw, None, None),
    (0x3_0000_0800, B, Some(Fault::F3), Some(Fault::F3)),
    (0x4_0000_0001, Dw, None, Some(Fault::F4)),
    (0x4_0000_0002, Dw, Some(Fault::F3), Some(Fault::F3)),
    (0xffff_ffff_ffff_ffff, Dw, Some(Fault::F3), Some(Fault::F3)),
];

/// Whether a load and a store are refused so.
fn are_refused(
    alloc: Global,
    addr: u64,
    size: Size,
    load: Option<Fault>,
    store: Option<Fault>,
) -> Result<bool, Fail> {
    let guest = start(alloc, b"constants")?;
    let loads = load_fault(&guest, addr, size) == load;
    let may_store = guest.stores(addr, size).err() == store;
    let stores = store_fault(guest, addr, size) == store;
    Ok(loads && may_store && stores)
}

#[test]
fn refuses_loads_and_stores(rt: HostRuntime) -> Result<(), Fail> {
    for &(addr, size, load, store) in &REFUSED {
        assert!(rt;
            are_refused(rt.alloc(), addr, size, load, store)?,
            "{size:?} at {addr}"
        );
    }
    Ok(())
}

/// The word at an address, if it can be loaded.
fn word(guest: &Guest, addr: u64, size: Size) -> Option<u64> {
    guest.read(addr, size).ok()
}

/// A copy of the memory.
fn copied(guest: &Guest) -> Result<Guest, Fail> {
    Ok(guest.copy()?)
}

/// Stores the word.
fn put(guest: &mut Guest, addr: u64, size: Size, word: u64) -> Result<(), WriteError> {
    guest.write(addr, size, word)
}

/// The memory after a store.
fn stored(mut guest: Guest, addr: u64, size: Size, word: u64) -> Result<Guest, Fail> {
    put(&mut guest, addr, size, word)?;
    Ok(guest)
}

/// The bytes at the base of the stack, of the verdict and of the constants.
fn bytes(guest: &Guest) -> [Option<u64>; 3] {
    [
        word(guest, 0x1_0000_0000, B),
        word(guest, 0x3_0000_0000, B),
        word(guest, 0x4_0000_0000, B),
    ]
}

/// These bytes of a memory and of its copy, after each has stored since the copy was made.
fn bytes_apart(alloc: Global) -> Result<[[Option<u64>; 3]; 2], Fail> {
    let guest = stored(start(alloc, b"a")?, 0x1_0000_0000, B, 1)?;
    let copy = stored(copied(&guest)?, 0x1_0000_0000, B, 2)?;
    let guest = stored(guest, 0x3_0000_0000, B, 3)?;
    Ok([bytes(&guest), bytes(&copy)])
}

#[test]
fn copies(rt: HostRuntime) -> Result<(), Fail> {
    let [first, second] = bytes_apart(rt.alloc())?;
    assert!(rt; first == [Some(1), Some(3), Some(0x61)]);
    assert!(rt; second == [Some(2), Some(0), Some(0x61)]);
    Ok(())
}

/// The words that a memory and its copy load, after each has stored to one address since the copy was made.
fn words_apart(alloc: Global, addr: u64) -> Result<[Option<u64>; 2], Fail> {
    let guest = stored(start(alloc, b"")?, addr, Dw, 1)?;
    let copy = stored(copied(&guest)?, addr, Dw, 2)?;
    let guest = stored(guest, addr, H, 3)?;
    Ok([word(&guest, addr, Dw), word(&copy, addr, Dw)])
}

/// The first words of pages, words across the border of two pages, and the last words of regions.
const WORDS: [u64; 8] = [
    0x1_0000_0000,
    0x1_0000_00ff,
    0x1_0000_0ff8,
    0x2_0000_0100,
    0x2_0000_0ff8,
    0x3_0000_0000,
    0x3_0000_01f9,
    0x3_0000_07f8,
];

#[test]
fn copies_see_no_later_store(rt: HostRuntime) -> Result<(), Fail> {
    for &addr in &WORDS {
        assert!(rt;
            words_apart(rt.alloc(), addr)? == [Some(3), Some(2)],
            "at {addr}"
        );
    }
    Ok(())
}

/// The first address of each writable page of 256 bytes.
#[rattlefmt::skip]
const PAGES: [u64; 40] = [
    0x1_0000_0000, 0x1_0000_0100, 0x1_0000_0200, 0x1_0000_0300,
    0x1_0000_0400, 0x1_0000_0500, 0x1_0000_0600, 0x1_0000_0700,
    0x1_0000_0800, 0x1_0000_0900, 0x1_0000_0a00, 0x1_0000_0b00,
    0x1_0000_0c00, 0x1_0000_0d00, 0x1_0000_0e00, 0x1_0000_0f00,
    0x2_0000_0000, 0x2_0000_0100, 0x2_0000_0200, 0x2_0000_0300,
    0x2_0000_0400, 0x2_0000_0500, 0x2_0000_0600, 0x2_0000_0700,
    0x2_0000_0800, 0x2_0000_0900, 0x2_0000_0a00, 0x2_0000_0b00,
    0x2_0000_0c00, 0x2_0000_0d00, 0x2_0000_0e00, 0x2_0000_0f00,
    0x3_0000_0000, 0x3_0000_0100, 0x3_0000_0200, 0x3_0000_0300,
    0x3_0000_0400, 0x3_0000_0500, 0x3_0000_0600, 0x3_0000_0700,
];

/// Stores a byte as the first and the last of a page.
fn fill(guest: &mut Guest, page: u64, byte: u64) -> Result<(), WriteError> {
    put(guest, page, B, byte)?;
    put(guest, page.saturating_add(255), B, byte)
}

/// The memory with a byte as the first and the last of each page.
fn filled(mut guest: Guest, byte: u64) -> Result<Guest, Fail> {
    for &page in &PAGES {
        fill(&mut guest, page, byte)?;
    }
    Ok(guest)
}

/// The sum of the first and the last byte of each page.
fn sum(guest: &Guest) -> u64 {
    let mut sum = 0u64;
    for &page in &PAGES {
        let first = word(guest, page, B).unwrap_or(0);
        let last = word(guest, page.saturating_add(255), B).unwrap_or(0);
        sum = sum.saturating_add(first).saturating_add(last);
    }
    sum
}

/// The sums of a memory and of its copy, after each page of the memory was written again.
fn sums_apart(alloc: Global) -> Result<[u64; 2], Fail> {
    let guest = filled(start(alloc, b"")?, 1)?;
    let copy = copied(&guest)?;
    let guest = filled(guest, 2)?;
    Ok([sum(&guest), sum(&copy)])
}

#[test]
fn a_copy_sees_no_store_to_a_page(rt: HostRuntime) -> Result<(), Fail> {
    assert!(rt; sums_apart(rt.alloc())? == [160, 80]);
    Ok(())
}
