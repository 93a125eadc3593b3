//! The record of a local call.

/// The record of a local call: the slot where the caller continues, and the caller's R6 to R9 (RFC
/// 9669, section 4.3).
#[derive(Clone, Copy, Debug, PartialEq, Eq)]
pub struct Frame {
    pub return_pc: i64,
    pub r6: u64,
    pub r7: u64,
    pub r8: u64,
    pub r9: u64,
}
