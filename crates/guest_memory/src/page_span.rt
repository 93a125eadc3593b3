//! The position of an access in a region.

/// The position of an access in a region of pages.
#[derive(Drop)]
pub enum PageSpan {
    /// All of its bytes are in one page.
    Within {
        /// The number of the page.
        page: usize,
        /// Its first byte, counted within the page.
        from: usize,
    },
    /// Its first byte is in the region, but the others are not all in the same page.
    Across,
    /// Its first byte is not in the region.
    Beyond,
}
