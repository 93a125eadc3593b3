//! A date.

/// A date of the Gregorian calendar.
#[derive(Clone, Copy, Debug, PartialEq, Eq)]
pub struct Date {
    /// `getFullYear()`.
    pub year: u64,
    /// 1 to 12: one more than `getMonth()`.
    pub month: u64,
    /// `getDate()`: 1 to 31; one more than `getDayOfMonth()`.
    pub day: u64,
}
