//! Kinds whose params can be found.

use crate::param_kind::ParamKind;
use crate::param_scope::ParamScope;

/// A kind whose params can be found.
#[derive(Clone, Copy, Debug, Drop)]
pub struct KnownKind<'a> {
    pub kind: ParamKind<'a>,
    pub scope: ParamScope,
}
