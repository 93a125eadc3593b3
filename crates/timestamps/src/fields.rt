//! The fields of a timestamp.
use crate::date::Date;

/// The fields of a timestamp in UTC.
#[derive(Clone, Copy, Debug, PartialEq, Eq)]
pub struct Fields {
    /// The date.
    pub date: Date,
    /// `getDayOfYear()`: from 0.
    pub day_of_year: u64,
    /// `getDayOfWeek()`: 0 on Sundays.
    pub day_of_week: u64,
    /// `getHours()`: 0 to 23.
    pub hours: u64,
    /// `getMinutes()`: 0 to 59.
    pub minutes: u64,
    /// `getSeconds()`: 0 to 59.
    pub seconds: u64,
    /// `getMilliseconds()`: 0 to 999.
    pub milliseconds: u64,
}
