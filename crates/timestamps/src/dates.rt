//! The date of a day.
ghost use Rattle.std.specs.Prelude.{◌≡◌, ◌<◌, ◌≤◌, ◌+◌};
ghost use Rattle.timestamps.specs.Calendar as specs;
ghost use Rattle.timestamps.specs.Fields.{IsDate};

use crate::calendar::{days_before_year, days_in, is_leap};
use crate::date::Date;

/// The year of a day that is numbered from the start of year 0: the last that does not begin after it.
fn year_of(day: u64) -> u64
    requires { day < 3652425 }
    ensures small { result < 10000 }
    ensures begun { specs.days_before_year result ≤ day }
    ensures unended { day < specs.days_before_year (result + 1) }
{
    let mut year = day / 366;
    'years: while days_before_year(year + 1) <= day {
        year += 1;
    }
    year
}

/// The date of a day of a year, from 0.
fn date_in(year: u64, day_of_year: u64) -> Date
    requires { day_of_year < specs.year_days year }
    ensures date { IsDate (specs.days_before_year year + day_of_year) result }
    ensures year { result.year ≡ year }
{
    let leap = is_leap(year);
    let mut passed = 0;
    let mut rest = day_of_year;
    'months: while passed < 11 && days_in(leap, passed + 1) <= rest {
        rest -= days_in(leap, passed + 1);
        passed += 1;
    }
    Date {
        year,
        month: passed + 1,
        day: rest + 1,
    }
}

/// The date of a day that is numbered from the start of year 0, and the days of its year before it.
pub fn date_of(day: u64) -> (Date, u64)
    requires { day < 3652425 }
    ensures date { IsDate day result.0 }
    ensures rest { specs.days_before_year result.0.year + result.1 ≡ day }
{
    let year = year_of(day);
    let day_of_year = day - days_before_year(year);
    (date_in(year, day_of_year), day_of_year)
}
