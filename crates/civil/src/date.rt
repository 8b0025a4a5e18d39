//! Civil dates.
ghost use Rattle.std.specs.Prelude.{◌≡◌, ◌+◌, ◌-◌, ◌*◌, ◌<◌, ◌≤◌};
ghost use Rattle.civil.specs.Dates.{date_of, day_number, days_before, month_length, year_length};

use super::month::Month;
use super::year::{first_day, is_leap, year_of};

/// A date of the Gregorian calendar.
#[derive(Clone, Copy, PartialEq, Eq, Debug)]
pub struct Date {
    pub year: u32,
    pub month: Month,
    pub day: u32,
}

// Year and month are two parameters: callers have them apart, and a pair would be taken apart again in each function.

/// How many days the month has.
pub(crate) fn length_of(year: u32, month: Month) -> u32
    ensures value { result ≡ month_length year month }
    ensures bound { result ≤ 31 }
{
    match month {
        Month::February => if is_leap(year) { 29 } else { 28 },
        Month::April | Month::June | Month::September | Month::November => 30,
        Month::January | Month::March | Month::May | Month::July => 31,
        Month::August | Month::October | Month::December => 31,
    }
}

/// How many days of the year lie before the month.
fn days_before(year: u32, month: Month) -> u32
    ensures value { result ≡ days_before year month }
    ensures bound { result ≤ 335 }
{
    let march = if is_leap(year) { 60 } else { 59 };
    match month {
        Month::January => 0,
        Month::February => 31,
        Month::March => march,
        Month::April => march + 31,
        Month::May => march + 61,
        Month::June => march + 92,
        Month::July => march + 122,
        Month::August => march + 153,
        Month::September => march + 184,
        Month::October => march + 214,
        Month::November => march + 245,
        Month::December => march + 275,
    }
}

// Three numbers and no `Date`: a day past the month's end, which is counted here, is in no date.
/// The day of a date, counted from 1 January 1970; past the month's end it counts on into the next month.
/// A year before 1970 is taken for 1970, and day 0 for day 1.
pub fn day_number(year: u32, month: Month, day: u32) -> u64
    ensures value { result ≡ day_number year month day }
    ensures bound { result ≤ 366 * (year - 1970) + 335 + day }
    ensures dated { 1970 ≤ year → 1 ≤ day → day ≤ month_length year month → date_of result ≡ record { year = year; month = month; day = day } }
{
    first_day(year) + days_before(year, month) as u64 + day.saturating_sub(1) as u64
}

/// The month in which the day lies that is so many days after the year's first.
fn month_at(year: u32, since: u32) -> Month
    requires { since < year_length year }
    ensures begun { days_before year result ≤ since }
    ensures ahead { since < days_before year result + month_length year result }
{
    *Month::ALL
        .iter()
        .find(|&&month| since < days_before(year, month) + length_of(year, month))
        .unwrap()
}

impl Date {
    /// The date of the day.
    pub fn of(day: u32) -> Date
        ensures { result ≡ date_of day }
    {
        let year = year_of(day);
        let since = (day as u64 - first_day(year)) as u32;
        let month = month_at(year, since);
        Date {
            year,
            month,
            day: since - days_before(year, month) + 1,
        }
    }
}
