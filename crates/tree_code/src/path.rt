//! Fields of roots.

/// A field of a root, such as `object.spec`.
#[derive(Clone, Copy)]
pub(crate) struct Path<'a> {
    pub(crate) root: &'a str,
    pub(crate) field: &'a str,
}
