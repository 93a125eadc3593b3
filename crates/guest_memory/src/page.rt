//! A page of bytes.
ghost use Rattle.std.specs.Prelude.{◌≡◌, ◌+◌, ◌≤◌, length, replicate, IfOk, OnOk, OnErr};
ghost use Rattle.guest_memory.specs.Access.{size_bytes};
ghost use Rattle.guest_memory.specs.PageBytes.{bytes_or_zeros};
ghost use Rattle.guest_memory.specs.Word.{low_bytes, overlay, part, word_of};

use crate::size::Size;
use crate::words::{put_word, word_at};
use std::alloc::{AllocError, Global};
use std::rc::Rc;

/// The number of bytes of a page.
pub const PAGE_LENGTH: usize = 256;

/// A page of 256 bytes that it shares with its clones until one of them is written. A page that was never written has
/// no bytes of its own: they are all zero.
#[derive(Drop)]
pub struct Page {
    pub alloc: Global,
    pub bytes: Option<Rc<[u8; 256]>>,
    pub ghost full: { length (bytes_or_zeros bytes) ≡ 256 },
}

impl Clone for Page {
    ghost is_clone = { λ page clone. bytes_or_zeros clone.bytes ≡ bytes_or_zeros page.bytes };

    fn clone(&self) -> Result<Page, AllocError> {
        match &self.bytes {
            Some(bytes) => Ok(Page {
                alloc: self.alloc,
                bytes: Some(bytes.clone()?),
            }),
            None => Ok(Page::of_zeros(self.alloc)),
        }
    }
}

impl Page {
    /// A page of zeros. Nothing is allocated.
    #[inline(always)]
    pub fn of_zeros(alloc: Global) -> Page
        ensures { bytes_or_zeros result.bytes ≡ replicate 256 0 }
    {
        Page { alloc, bytes: None }
    }

    /// A copy of its bytes.
    pub fn whole(&self) -> [u8; 256]
        ensures { result ≡ bytes_or_zeros self.now.bytes }
    {
        match &self.bytes {
            Some(bytes) => **bytes,
            None => [0; PAGE_LENGTH],
        }
    }

    /// The little-endian number in the bytes from `at` on.
    #[tactic(auto, using(crate::proofs::PagedBytes::zeros_read))]
    #[inline(always)]
    pub fn word_at(&self, at: usize, size: Size) -> u64
        requires { at + size_bytes size ≤ 256 }
        ensures { result ≡ word_of (part (bytes_or_zeros self.now.bytes) at (size_bytes size)) }
    {
        match &self.bytes {
            Some(bytes) => word_at(&bytes[..], at, size),
            None => 0,
        }
    }

    /// Writes the low bytes of a word from `at` on, to a copy of the bytes if they are shared.
    #[inline(always)]
    pub fn put_word(&mut self, at: usize, size: Size, word: u64) -> Result<(), AllocError>
        requires { at + size_bytes size ≤ 256 }
        ensures ok { OnOk result (bytes_or_zeros self.new.bytes ≡ overlay (bytes_or_zeros self.old.bytes) at (low_bytes (size_bytes size) word)) }
        ensures err { OnErr result (bytes_or_zeros self.new.bytes ≡ bytes_or_zeros self.old.bytes) }
    {
        match &mut self.bytes {
            Some(bytes) => match Rc::get_mut(bytes) {
                Some(own) => {
                    put_word(own, at, size, word);
                    Ok(())
                }
                None => self.put_word_in_copy(at, size, word),
            },
            None => self.put_word_in_copy(at, size, word),
        }
    }

    /// Writes the low bytes of a word from `at` on, to a copy of the bytes.
    #[cold]
    #[inline(never)]
    fn put_word_in_copy(&mut self, at: usize, size: Size, word: u64) -> Result<(), AllocError>
        requires { at + size_bytes size ≤ 256 }
        ensures ok { OnOk result (bytes_or_zeros self.new.bytes ≡ overlay (bytes_or_zeros self.old.bytes) at (low_bytes (size_bytes size) word)) }
        ensures err { OnErr result (bytes_or_zeros self.new.bytes ≡ bytes_or_zeros self.old.bytes) }
    {
        let mut own = self.whole();
        put_word(&mut own, at, size, word);
        self.bytes = Some(shared(self.alloc, own)?);
        Ok(())
    }

    /// Overwrites the bytes from `at` on, in a copy.
    pub fn put(&mut self, at: usize, bytes: &[u8]) -> Result<(), AllocError>
        requires { at + length bytes.now ≤ 256 }
        ensures ok { OnOk result (bytes_or_zeros self.new.bytes ≡ overlay (bytes_or_zeros self.old.bytes) at bytes.now) }
        ensures err { OnErr result (bytes_or_zeros self.new.bytes ≡ bytes_or_zeros self.old.bytes) }
    {
        let mut own = self.whole();
        own[at..at + bytes.len()].copy_from_slice(bytes);
        self.bytes = Some(shared(self.alloc, own)?);
        Ok(())
    }
}

/// Bytes that clones can share.
fn shared(alloc: Global, bytes: [u8; 256]) -> Result<Rc<[u8; 256]>, AllocError>
    ensures { IfOk result (λ shared. shared.value ≡ bytes) }
{
    let Ok(shared) = Rc::new(alloc, bytes) else {
        return Err(AllocError);
    };
    Ok(shared)
}
