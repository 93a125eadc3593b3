//! The memory of a machine: its calls.
ghost use Rattle.std.specs.Prelude.{◌≡◌, option_copied, IfOk};
ghost use Rattle.guest_memory.specs.Memory.{Memory, start_memory};
ghost use Rattle.guest_memory.specs.Access.{read_of, write_of, stores_of, constants_of, StoreReturns};

use crate::fault::Fault;
use crate::size::Size;
use crate::write_error::WriteError;
use std::alloc::{AllocError, Global};
use std::sync::Arc;

/// The four regions of bytes that a program sees: the stack at 0x1_0000_0000 and the scratch at 0x2_0000_0000, each
/// of 4,096 bytes, the verdict at 0x3_0000_0000, of 2,048 bytes, and the read-only constants at 0x4_0000_0000.
pub trait Regions: Drop {
    /// The bytes of each region.
    ghost bytes: { Self → Memory };

    /// The memory at the start of a program: these constants, and zeros elsewhere.
    fn of_constants(alloc: Global, constants: &[u8]) -> Result<Self, AllocError>
        ensures { IfOk result (λ memory. bytes memory ≡ start_memory constants.now) };

    /// `of_constants` of constants that are shared. Nothing is allocated.
    fn of_shared(alloc: Global, constants: Arc<Vec<u8>>) -> Self
        ensures { bytes result ≡ start_memory constants.value.items };

    /// A copy with memory of its own.
    fn copy(&self) -> Result<Self, AllocError>
        ensures { IfOk result (λ copy. bytes copy ≡ bytes self.now) };

    /// The little-endian number in the bytes from `addr` on, zero-extended; or `F3` if they are not all in one region
    /// (RFC 9669, section 5).
    fn read(&self, addr: u64, size: Size) -> Result<u64, Fault>
        ensures { result ≡ read_of (bytes self.now) addr size };

    /// Writes the low bytes of a word from `addr` on, the least significant first (RFC 9669, section
    /// 5). The error is `F3` if they would not all be in one region and `F4` if that region is the
    /// constants. After an error nothing is changed.
    fn write(&mut self, addr: u64, size: Size, word: u64) -> Result<(), WriteError>
        ensures { StoreReturns (write_of (bytes self.old) addr size word) result (bytes self.old) (bytes self.new) };

    /// Whether a store would succeed: the fault is the one that `write` would return, for
    /// any word. Nothing is written or allocated.
    fn stores(&self, addr: u64, size: Size) -> Result<(), Fault>
        ensures { result ≡ stores_of (bytes self.now) addr size };

    /// The `len` bytes from `addr` on, if all of them are in the constants.
    fn constants(&self, addr: u64, len: u64) -> Option<&[u8]>
        ensures { option_copied result ≡ constants_of (bytes self.now) addr len };
}
