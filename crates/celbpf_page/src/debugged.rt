//! What is debugged.

/// The file of an image, and the documents on which it runs. No bytes mean that there is no such
/// document.
#[derive(Clone, Copy)]
pub struct Debugged<'a> {
    pub image: &'a [u8],
    pub review: &'a [u8],
    pub namespace: &'a [u8],
    pub params: &'a [u8],
}
