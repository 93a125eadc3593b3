//! Histories on the plain store and plain memory.
use super::nulls;
use bpf_machine::Machine;
use guest_memory::Guest;
use history::{History, Past};
use loader::Image;
use std::alloc::Global;
use value_store::PlainTable;

mod places;
mod searches;

type Plain = Machine<PlainTable, Guest>;

/// The image of this code.
fn image(alloc: Global, code: &[u8]) -> Option<Image> {
    let code = Vec::from_slice(alloc, code).ok()?;
    Image::new(code, Vec::new(alloc)).ok()
}

/// The plain table of five null roots.
fn values(alloc: Global) -> Option<PlainTable> {
    PlainTable::of_roots(alloc, &nulls()).ok()
}

/// The machine at the start of this image, with these values.
fn started(alloc: Global, image: Option<Image>, values: Option<PlainTable>) -> Option<Plain> {
    let image = image?;
    let values = values?;
    Machine::start(alloc, image, values).ok()
}

/// The run of this code, shown at place 0.
fn begun(alloc: Global, code: &[u8]) -> Option<Past<Plain>> {
    let machine = started(alloc, image(alloc, code), values(alloc))?;
    Past::begin(alloc, machine).ok()
}
