//! The frames of local calls.

/// The largest number of records of local calls. With the first frame, at most eight are open.
pub(crate) const RECORD_LIMIT: usize = 7;

/// The length of a frame on the stack, in bytes.
pub(crate) const FRAME_LENGTH: u64 = 512;
