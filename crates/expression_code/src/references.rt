//! The references of the values that exist from the start.

/// The error.
pub const ERROR: i32 = 0;

/// Null.
pub const NULL: i32 = 1;

/// False.
pub const FALSE: i32 = 2;

/// True.
pub const TRUE: i32 = 3;

/// The root `object`.
pub const OBJECT: i32 = 4;

/// The root `oldObject`.
pub const OLD_OBJECT: i32 = 5;

/// The root `params`.
pub const PARAMS: i32 = 6;

/// The root `namespaceObject`.
pub const NAMESPACE_OBJECT: i32 = 7;

/// The root `request`.
pub const REQUEST: i32 = 8;
