//! The years that can be asked for.
ghost use Rattle.std.specs.Prelude.{◌≤◌, Some};
ghost use Rattle.std.specs.Fmt.{decimal};

use super::fault::Fault;
use calendar::easter::easter_sunday;
use civil::date::day_number;
use civil::month::Month;
use std::fmt;
use std::ops::Range;
use std::str::FromStr;

const FIRST_YEAR: u32 = 2000;

const LAST_YEAR: u32 = 2199;

/// A year of the calendar by rule.
#[derive(Clone, Copy, PartialEq, Eq, PartialOrd, Ord, Debug)]
pub struct Year {
    number: u32,
    ghost known: { (2000 ≤ number) × (number ≤ 2199) },
}

impl Year {
    ghost use Rattle.std.specs.Prelude.{◌≡◌, ◌+◌};
    ghost use Rattle.civil.specs.Dates.{day_number, next_month};
    ghost use Rattle.civil.specs.declared.month.Month.TheVariants.{January};
    ghost use Rattle.calendar.specs.Easter.{easter_sunday};

    /// The day of Easter Sunday.
    pub fn easter(self) -> u32
        ensures { result ≡ easter_sunday self.number }
    {
        easter_sunday(self.number) as u32
    }

    fn first_of(self, month: Month) -> u32
        ensures { result ≡ day_number self.number month 1 }
    {
        day_number(self.number, month, 1) as u32
    }

    /// The day after the year's last.
    fn end(self) -> u32
        ensures { result ≡ day_number (self.number + 1) January 1 }
    {
        day_number(self.number + 1, Month::January, 1) as u32
    }

    /// The days of the year.
    pub fn days(self) -> Range<u32>
        ensures first { result.start ≡ day_number self.number January 1 }
        ensures end { result.end ≡ day_number (self.number + 1) January 1 }
    {
        self.first_of(Month::January)..self.end()
    }

    /// The days of one of its months.
    pub fn days_of(self, month: Month) -> Range<u32>
        ensures first { result.start ≡ day_number self.number month 1 }
        ensures end { result.end ≡ day_number (next_month self.number month).year (next_month self.number month).month 1 }
    {
        let end = match month {
            Month::December => self.end(),
            _ => self.first_of(month.following()),
        };
        self.first_of(month)..end
    }

    /// The days from this year's first to another's last.
    pub fn days_until(self, last: Year) -> Range<u32>
        ensures first { result.start ≡ day_number self.number January 1 }
        ensures end { result.end ≡ day_number (last.number + 1) January 1 }
    {
        self.first_of(Month::January)..last.end()
    }
}

impl FromStr for Year {
    type Err = Fault;

    fn from_str(word: &str) -> Result<Year, Fault> {
        let number = word.parse::<u32>().map_err(|_| Fault::NoNumber)?;
        if !(FIRST_YEAR..=LAST_YEAR).contains(&number) {
            return Err(Fault::OutOfRange(number));
        }
        Ok(Year { number })
    }
}

impl fmt::Display for Year {
    ghost output = { λ year. Some (decimal year.number) };

    fn fmt<W: fmt::Write>(&self, f: &mut fmt::Formatter<W>) -> fmt::Result {
        let number = self.number;
        write!(f, "{number}")
    }
}
