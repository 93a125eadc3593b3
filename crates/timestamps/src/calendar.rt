//! The Gregorian calendar.
ghost use Rattle.std.specs.Prelude.{◌≡◌, ◌<◌, ◌≤◌, true};
ghost use Rattle.timestamps.specs.Calendar as specs;

/// Whether the year has a 29th of February.
pub fn is_leap(year: u64) -> bool
    ensures { result ≡ specs.is_leap year }
{
    year % 4 == 0 && (year % 100 != 0 || year % 400 == 0)
}

/// The days of a month, 1 to 12, in a leap year or another.
pub fn days_in(leap: bool, month: u64) -> u64
    ensures value { result ≡ specs.days_in leap month }
    ensures small { result ≤ 31 }
{
    if month == 2 {
        if leap { 29 } else { 28 }
    } else if month == 4 || month == 6 || month == 9 || month == 11 {
        30
    } else {
        31
    }
}

/// The days before the year, from the start of year 0.
pub fn days_before_year(year: u64) -> u64
    requires { year ≤ 10000 }
    ensures value { result ≡ specs.days_before_year year }
    ensures small { result < 4000000 }
{
    365 * year + (year + 3) / 4 + (year + 399) / 400 - (year + 99) / 100
}

/// The days of the first months, `count` of them.
fn days_of_months(leap: bool, count: u64) -> u64
    requires { count < 12 }
    ensures value { result ≡ specs.days_of_months leap count }
    ensures small { result ≤ 341 }
{
    let mut days = 0;
    'months: for passed in 0..count {
        days += days_in(leap, passed + 1);
    }
    days
}

/// Whether the day exists.
#[tactic(auto, unfolding(crate::specs::Calendar::is_day))]
pub fn is_day(year: u64, month: u64, day: u64) -> bool
    ensures { result ≡ specs.is_day year month day }
{
    month >= 1 && month <= 12 && day >= 1 && day <= days_in(is_leap(year), month)
}

/// The days from the start of year 0 to a day that exists.
#[tactic(auto, unfolding(crate::specs::Calendar::is_day, crate::specs::Calendar::day_number))]
pub fn day_number(year: u64, month: u64, day: u64) -> u64
    requires year { year < 10000 }
    requires exists { specs.is_day year month day ≡ true }
    ensures value { result ≡ specs.day_number year month day }
    ensures small { result < 5000000 }
{
    days_before_year(year) + days_of_months(is_leap(year), month - 1) + (day - 1)
}
