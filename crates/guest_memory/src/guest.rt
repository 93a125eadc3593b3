//! Memory in pages that copies share.
ghost use Rattle.std.specs.Prelude.{◌≡◌, length, replicate, IfOk, None};
ghost use Rattle.guest_memory.specs.Answers.{answer_of, word_or_outside};
ghost use Rattle.guest_memory.specs.Access.{place_of, read_of, size_bytes, write_of, StoreReturns};
ghost use Rattle.guest_memory.specs.Memory.{Memory};

use crate::answer::Answer;
use crate::fault::Fault;
use crate::page_span::PageSpan;
use crate::region::Region;
use crate::regions::Regions;
use crate::size::Size;
use crate::words::word_at;
use crate::write_error::WriteError;
use std::alloc::{AllocError, Global};
use std::sync::Arc;

/// The first address of the stack.
pub const STACK: u64 = 0x1_0000_0000;

/// The first address of the scratch.
pub const SCRATCH: u64 = 0x2_0000_0000;

/// The first address of the verdict.
pub const VERDICT: u64 = 0x3_0000_0000;

/// The first address of the constants.
pub const CONSTANTS: u64 = 0x4_0000_0000;

/// Memory that shares its pages and its constants with its copies. A store copies a shared page of 256 bytes first.
#[derive(Drop)]
pub struct Guest {
    stack: Region<16>,
    scratch: Region<16>,
    verdict: Region<8>,
    constants: Arc<Vec<u8>>,
}

/// The offset of `n` bytes at `addr` in a region of `len` bytes from `base` on, if all of them are in it.
#[inline(always)]
fn place(base: u64, len: usize, addr: u64, n: u64) -> Option<usize>
    ensures { result ≡ place_of base len addr n }
{
    if addr < base {
        return None;
    }
    let at = addr - base;
    if at <= len as u64 && n <= len as u64 - at {
        Some(at as usize)
    } else {
        None
    }
}

/// The constants in shared ownership.
fn shared(alloc: Global, constants: &[u8]) -> Result<Arc<Vec<u8>>, AllocError>
    ensures { IfOk result (λ block. block.value.items ≡ constants.now) }
{
    let block = Vec::from_slice(alloc, constants)?;
    let Ok(block) = Arc::new(alloc, block) else {
        return Err(AllocError);
    };
    Ok(block)
}

/// Loads and stores that are not within one page of the stack. They are rare, so they are kept out of the fast path.
impl Guest {
    /// The word of a load that crosses pages of the stack, if one region has its bytes.
    #[tactic(auto, unfolding(crate::specs::Access::read_of))]
    #[cold]
    #[inline(never)]
    fn read_across(&self, addr: u64, size: Size) -> Option<u64>
        ensures { let memory : Memory = record {
          stack = self.now.stack;
          scratch = self.now.scratch;
          verdict = self.now.verdict;
          constants = self.now.constants.value.items;
        } in
            word_or_outside result ≡ read_of memory addr size }
    {
        match place(STACK, self.stack.len(), addr, size.bytes() as u64) {
            Some(at) => Some(self.stack.word_at(at, size)),
            None => self.read_above(addr, size),
        }
    }

    /// The word of a load whose bytes are not all on the stack, if one region has them.
    #[tactic(auto, unfolding(crate::specs::Access::read_of))]
    #[cold]
    #[inline(never)]
    fn read_above(&self, addr: u64, size: Size) -> Option<u64>
        requires { place_of 0x100000000 (length self.now.stack) addr (size_bytes size) ≡ None }
        ensures { let memory : Memory = record {
          stack = self.now.stack;
          scratch = self.now.scratch;
          verdict = self.now.verdict;
          constants = self.now.constants.value.items;
        } in
            word_or_outside result ≡ read_of memory addr size }
    {
        let n = size.bytes() as u64;
        if let Some(at) = place(SCRATCH, self.scratch.len(), addr, n) {
            return Some(self.scratch.word_at(at, size));
        }
        if let Some(at) = place(VERDICT, self.verdict.len(), addr, n) {
            return Some(self.verdict.word_at(at, size));
        }
        if let Some(at) = place(CONSTANTS, self.constants.len(), addr, n) {
            return Some(word_at(&self.constants, at, size));
        }
        None
    }

    /// A store that crosses pages of the stack.
    #[tactic(auto, unfolding(crate::specs::Access::write_of))]
    #[cold]
    #[inline(never)]
    fn write_across(&mut self, addr: u64, size: Size, word: u64) -> Answer
        ensures { let before : Memory = record {
          stack = self.old.stack;
          scratch = self.old.scratch;
          verdict = self.old.verdict;
          constants = self.old.constants.value.items;
        } in
            let after : Memory = record {
              stack = self.new.stack;
              scratch = self.new.scratch;
              verdict = self.new.verdict;
              constants = self.new.constants.value.items;
            } in
            StoreReturns (write_of before addr size word) (answer_of result) before after }
    {
        if let Some(at) = place(STACK, self.stack.len(), addr, size.bytes() as u64) {
            let Ok(()) = self.stack.put_word(at, size, word) else {
                return Answer::NoMemory;
            };
            return Answer::Made;
        }
        self.write_above(addr, size, word)
    }

    /// A store whose bytes would not all be on the stack.
    #[tactic(auto, unfolding(crate::specs::Access::write_of))]
    #[cold]
    #[inline(never)]
    fn write_above(&mut self, addr: u64, size: Size, word: u64) -> Answer
        requires { place_of 0x100000000 (length self.old.stack) addr (size_bytes size) ≡ None }
        ensures { let before : Memory = record {
          stack = self.old.stack;
          scratch = self.old.scratch;
          verdict = self.old.verdict;
          constants = self.old.constants.value.items;
        } in
            let after : Memory = record {
              stack = self.new.stack;
              scratch = self.new.scratch;
              verdict = self.new.verdict;
              constants = self.new.constants.value.items;
            } in
            StoreReturns (write_of before addr size word) (answer_of result) before after }
    {
        let n = size.bytes() as u64;
        if let Some(at) = place(SCRATCH, self.scratch.len(), addr, n) {
            let Ok(()) = self.scratch.put_word(at, size, word) else {
                return Answer::NoMemory;
            };
            return Answer::Made;
        }
        if let Some(at) = place(VERDICT, self.verdict.len(), addr, n) {
            let Ok(()) = self.verdict.put_word(at, size, word) else {
                return Answer::NoMemory;
            };
            return Answer::Made;
        }
        if let Some(_at) = place(CONSTANTS, self.constants.len(), addr, n) {
            return Answer::Constant;
        }
        Answer::Outside
    }
}

/// The result of a load: the word if there is one, else `F3`.
#[inline(always)]
fn loaded(word: Option<u64>) -> Result<u64, Fault>
    ensures { result ≡ word_or_outside word }
{
    match word {
        Some(word) => Ok(word),
        None => Err(Fault::F3),
    }
}

impl Regions for Guest {
    ghost bytes = { λ g. record { stack = g.stack; scratch = g.scratch; verdict = g.verdict; constants = g.constants.value.items } };

    fn of_constants(alloc: Global, constants: &[u8]) -> Result<Self, AllocError> {
        let constants = shared(alloc, constants)?;
        Ok(Guest::of_shared(alloc, constants))
    }

    fn of_shared(alloc: Global, constants: Arc<Vec<u8>>) -> Self {
        Guest {
            stack: Region::zeroed(alloc),
            scratch: Region::zeroed(alloc),
            verdict: Region::zeroed(alloc),
            constants,
        }
    }

    fn copy(&self) -> Result<Self, AllocError> {
        Ok(Guest {
            stack: self.stack.copy()?,
            scratch: self.scratch.copy()?,
            verdict: self.verdict.copy()?,
            constants: self.constants.clone()?,
        })
    }

    #[tactic(auto, unfolding(crate::specs::Access::read_of))]
    #[inline(always)]
    fn read(&self, addr: u64, size: Size) -> Result<u64, Fault> {
        match self.stack.page_span(STACK, addr, size) {
            PageSpan::Within { page, from } => Ok(self.stack.word_in(page, from, size)),
            PageSpan::Across => loaded(self.read_across(addr, size)),
            PageSpan::Beyond => loaded(self.read_above(addr, size)),
        }
    }

    #[tactic(auto, unfolding(crate::specs::Access::write_of))]
    #[inline(always)]
    fn write(&mut self, addr: u64, size: Size, word: u64) -> Result<(), WriteError> {
        match self.stack.page_span(STACK, addr, size) {
            PageSpan::Within { page, from } => {
                let Ok(()) = self.stack.put_in(page, from, size, word) else {
                    return Err(WriteError::Memory);
                };
                Ok(())
            }
            PageSpan::Across => self.write_across(addr, size, word).result(),
            PageSpan::Beyond => self.write_above(addr, size, word).result(),
        }
    }

    #[tactic(auto, unfolding(crate::specs::Access::stores_of, crate::specs::Access::write_of))]
    fn stores(&self, addr: u64, size: Size) -> Result<(), Fault> {
        let n = size.bytes() as u64;
        if let Some(_at) = place(STACK, self.stack.len(), addr, n) {
            return Ok(());
        }
        if let Some(_at) = place(SCRATCH, self.scratch.len(), addr, n) {
            return Ok(());
        }
        if let Some(_at) = place(VERDICT, self.verdict.len(), addr, n) {
            return Ok(());
        }
        if let Some(_at) = place(CONSTANTS, self.constants.len(), addr, n) {
            return Err(Fault::F4);
        }
        Err(Fault::F3)
    }

    #[tactic(auto, unfolding(crate::specs::Access::constants_of))]
    fn constants(&self, addr: u64, len: u64) -> Option<&[u8]> {
        if len == 0 {
            return Some(&self.constants[..0]);
        }
        let at = place(CONSTANTS, self.constants.len(), addr, len)?;
        Some(&self.constants[at..at + len as usize])
    }
}
