//! Parses source lines.

pub(crate) mod accesses;
pub(crate) mod arithmetic;
pub(crate) mod jump;
pub(crate) mod jumps;
pub(crate) mod line;
pub(crate) mod line_error;
pub(crate) mod mnemonics;
pub(crate) mod reading;
