//! The limits of an expression and of its code.

/// The largest number of words of its frame that the code of an expression may need.
pub const WORD_LIMIT: u64 = 60;

/// The greatest depth of a variable.
pub const VARIABLE_DEPTH_LIMIT: u64 = 6;

/// The largest number of nodes of all expressions together; an image has slots for them.
pub const NODE_LIMIT: u64 = 512;
