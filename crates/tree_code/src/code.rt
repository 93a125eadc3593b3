//! The code of each construct, built from the code of its parts. Each function fails only if an
//! allocation fails.

pub(crate) mod aggregates;
pub(crate) mod arithmetic;
pub(crate) mod calls;
pub(crate) mod folds;
pub(crate) mod kept_lists;
pub(crate) mod literals;
pub(crate) mod logic;
pub(crate) mod names;
pub(crate) mod operators;
pub(crate) mod paths;
pub(crate) mod routines;
pub(crate) mod selection;
pub(crate) mod variables;

use insn_codec::Insn;
use std::alloc::AllocError;

/// The code of an expression or of a part of it.
pub type Code = Result<Vec<Insn>, AllocError>;
