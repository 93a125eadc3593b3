//! What items show of a kind.

/// What the items of a group and kind show.
#[derive(Clone, Copy, Debug, Drop)]
pub(crate) struct Shape<'a> {
    /// The `apiVersion` of the last item.
    pub(crate) api_version: &'a str,
    /// Whether an item has another one.
    pub(crate) differs: bool,
    /// Whether an item is in a namespace.
    pub(crate) is_namespaced: bool,
}
