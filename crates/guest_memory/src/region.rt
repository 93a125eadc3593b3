//! A writable region of bytes.
ghost use Rattle.std.specs.Prelude.{◌≡◌, ◌+◌, ◌*◌, ◌%◌, ◌≤◌, length, replicate, IfOk, OnOk, OnErr};
ghost use Rattle.guest_memory.specs.Access.{size_bytes};
ghost use Rattle.guest_memory.specs.PageSpans.{IsPageSpan};
ghost use Rattle.guest_memory.specs.Word.{low_bytes, overlay, part, word_of};

use crate::page::{PAGE_LENGTH, Page};
use crate::page_span::PageSpan;
use crate::pages::{put_in, put_word, word_at, word_in};
use crate::size::Size;
use std::alloc::{AllocError, Global};
use std::array;
use std::marker::Model;

/// `N` pages of 256 bytes that copies share until one of them writes a page.
#[derive(Drop)]
pub struct Region<const N: usize> {
    pages: [Page; N],
}

impl<const N: usize> Model for Region<N> {
    ghost use Rattle.std.specs.Prelude.{◌≡◌, ◌≤◌, ℕ, List, length};
    ghost use Rattle.guest_memory.specs.Pages.{joined};

    ghost Value = { List ℕ };

    ghost view = { λ r. joined r.pages };

    ghost invariant = { λ r. (length r.pages ≡ N) × (N ≤ 256) };
}

impl<const N: usize> Region<N> {
    /// A region of zeros. Nothing is allocated.
    pub fn zeroed(alloc: Global) -> Region<N>
        requires { N ≤ 256 }
        ensures { result ≡ replicate (256 * N) 0 }
    {
        let pages = array::from_fn(|_page| Page::of_zeros(alloc));
        Region { pages }
    }

    /// A copy that shares the pages.
    pub fn copy(&self) -> Result<Region<N>, AllocError>
        ensures { IfOk result (λ copy. copy ≡ self.now) }
    {
        let pages = self.pages.clone()?;
        Ok(Region { pages })
    }

    /// The number of bytes.
    #[tactic(auto, using(crate::proofs::PagedBytes::joined_length))]
    #[inline(always)]
    pub fn len(&self) -> usize
        ensures same { result ≡ length self.now }
        ensures most { result ≤ 65536 }
        ensures whole { result % 256 ≡ 0 }
    {
        self.pages[..].len() * PAGE_LENGTH
    }

    /// The position of an access in the region, which begins at `base`. For an address below the region
    /// the difference wraps and is past the end too.
    #[inline(always)]
    pub fn page_span(&self, base: u64, addr: u64, size: Size) -> PageSpan
        requires { base % 256 ≡ 0 }
        ensures { IsPageSpan base (length self.now) addr (size_bytes size) result }
    {
        let len = self.len();
        let page = (addr / 256).wrapping_sub(base / 256) as usize;
        if page >= len / PAGE_LENGTH {
            return PageSpan::Beyond;
        }
        let from = (addr % 256) as usize;
        if from > PAGE_LENGTH - size.bytes() {
            return PageSpan::Across;
        }
        PageSpan::Within { page, from }
    }

    /// The little-endian number in the bytes of a page from `from` on.
    #[tactic(auto, using(crate::proofs::PagedBytes::joined_length))]
    #[inline(always)]
    pub fn word_in(&self, page: usize, from: usize, size: Size) -> u64
        requires inside { 256 * page + 256 ≤ length self.now }
        requires within { from + size_bytes size ≤ 256 }
        ensures { result ≡ word_of (part self.now (256 * page + from) (size_bytes size)) }
    {
        word_in(&self.pages, page, from, size)
    }

    /// The little-endian number in the bytes from `at` on.
    pub fn word_at(&self, at: usize, size: Size) -> u64
        requires { at + size_bytes size ≤ length self.now }
        ensures { result ≡ word_of (part self.now at (size_bytes size)) }
    {
        word_at(&self.pages, at, size)
    }

    /// Writes the low bytes of a word to a page from `from` on. If an allocation fails, all is unchanged.
    #[tactic(auto, using(crate::proofs::PagedBytes::joined_length))]
    #[inline(always)]
    pub fn put_in(
        &mut self,
        page: usize,
        from: usize,
        size: Size,
        word: u64,
    ) -> Result<(), AllocError>
        requires inside { 256 * page + 256 ≤ length self.old }
        requires within { from + size_bytes size ≤ 256 }
        ensures ok { OnOk result (self.new ≡ overlay self.old (256 * page + from) (low_bytes (size_bytes size) word)) }
        ensures err { OnErr result (self.new ≡ self.old) }
    {
        put_in(&mut self.pages, page, from, size, word)?;
        Ok(())
    }

    /// Writes the low bytes of a word from `at` on. If an allocation fails, all is unchanged.
    pub fn put_word(&mut self, at: usize, size: Size, word: u64) -> Result<(), AllocError>
        requires { at + size_bytes size ≤ length self.old }
        ensures ok { OnOk result (self.new ≡ overlay self.old at (low_bytes (size_bytes size) word)) }
        ensures err { OnErr result (self.new ≡ self.old) }
    {
        put_word(&mut self.pages, at, size, word)?;
        Ok(())
    }
}
