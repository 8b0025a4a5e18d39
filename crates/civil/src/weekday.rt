//! The days of the week.
ghost use Rattle.std.specs.Prelude.{◌≡◌, ◌+◌, ◌-◌, ◌*◌, ◌%◌, ◌^◌, ◌<◌, ◌≤◌};
ghost use Rattle.civil.specs.Weekdays.{weekday_of, is_weekend, last_sunday};

use super::date::{day_number, length_of};
use super::month::Month;

#[derive(Clone, Copy, PartialEq, Eq, Debug)]
pub enum Weekday {
    Monday,
    Tuesday,
    Wednesday,
    Thursday,
    Friday,
    Saturday,
    Sunday,
}

/// The weekdays from day 0 on.
const WEEK_FROM_DAY_ZERO: [Weekday; 7] = [
    Weekday::Thursday,
    Weekday::Friday,
    Weekday::Saturday,
    Weekday::Sunday,
    Weekday::Monday,
    Weekday::Tuesday,
    Weekday::Wednesday,
];

impl Weekday {
    /// The weekday of a day; day 0 was a Thursday.
    pub fn of(day: u32) -> Weekday
        ensures { result ≡ weekday_of day }
    {
        WEEK_FROM_DAY_ZERO[day as usize % 7]
    }

    /// Is it a Saturday or a Sunday?
    pub fn is_weekend(self) -> bool
        ensures { result ≡ is_weekend self }
    {
        matches!(self, Weekday::Saturday | Weekday::Sunday)
    }
}

/// How many days after a Sunday the day is: day 3 was a Sunday.
fn since_sunday(day: u64) -> u64
    requires { day + 4 < 2 ^ 64 }
    ensures { result ≡ (day + 4) % 7 }
{
    (day + 4) % 7
}

/// The day of the month's last Sunday.
pub fn last_sunday(year: u32, month: Month) -> u64
    ensures value { result ≡ last_sunday year month }
    ensures bound { result ≤ 366 * (year - 1970) + 366 }
{
    let end = day_number(year, month, length_of(year, month));
    end - since_sunday(end)
}
