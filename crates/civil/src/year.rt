//! Years of the Gregorian calendar.
ghost use Rattle.std.specs.Prelude.{◌≡◌, ◌-◌, ◌*◌, ◌≤◌};
ghost use Rattle.civil.specs.Dates.{leap, new_year};
ghost use Rattle.civil.specs.Years.{YearOf};

/// The first year whose days have numbers.
const EPOCH_YEAR: u32 = 1970;

/// Is the year a leap year?
pub fn is_leap(year: u32) -> bool
    ensures { result ≡ leap year }
{
    year % 4 == 0 && (year % 100 != 0 || year % 400 == 0)
}

/// The day of 1 January of `year`: 365 days for each year since 1970, and one more for each leap year since.
pub(crate) fn first_day(year: u32) -> u64
    ensures value { result ≡ new_year year }
    ensures bound { result ≤ 366 * (year - 1970) }
{
    let years = year.saturating_sub(EPOCH_YEAR) as u64;
    let before = 1969 + years;
    let leaps = before / 4 - before / 100 + before / 400;
    365 * years + leaps - 477
}

/// The year in which `day` lies. A year has 146,097 / 400 days on average, which gives it or the one before it.
pub(crate) fn year_of(day: u32) -> u32
    ensures { YearOf day result }
{
    let year = EPOCH_YEAR + (day.saturating_sub(1) as u64 * 400 / 146097) as u32;
    if first_day(year + 1) <= day as u64 {
        year + 1
    } else {
        year
    }
}
