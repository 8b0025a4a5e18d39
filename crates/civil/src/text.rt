//! Dates as they are written, and the names of months and weekdays.
ghost use Rattle.std.specs.Prelude.{◌≡◌, Some};
ghost use Rattle.std.specs.Fmt.{padded};
ghost use Rattle.civil.specs.Text.{date_text, month_name, weekday_name};

use super::date::Date;
use super::month::Month;
use super::weekday::Weekday;
use std::fmt;

impl fmt::Display for Date {
    ghost output = { λ t. Some (date_text t) };

    fn fmt<W: fmt::Write>(&self, f: &mut fmt::Formatter<W>) -> fmt::Result {
        let Date { year, month, day } = *self;
        let month = month.number();
        write!(f, "{year}-{month:02}-{day:02}")
    }
}

impl Month {
    /// The month's name.
    pub fn name(self) -> &'static str
        ensures { result.now ≡ month_name self }
    {
        match self {
            Month::January => "January",
            Month::February => "February",
            Month::March => "March",
            Month::April => "April",
            Month::May => "May",
            Month::June => "June",
            Month::July => "July",
            Month::August => "August",
            Month::September => "September",
            Month::October => "October",
            Month::November => "November",
            Month::December => "December",
        }
    }
}

// Month, Weekday and almanac's Closing each print their name in an impl of their own: an impl by a macro is not allowed.
impl fmt::Display for Month {
    ghost output = { λ m. Some (month_name m) };

    ghost styled_output = { λ m spec. Some (padded spec (month_name m)) };

    fn fmt<W: fmt::Write>(&self, f: &mut fmt::Formatter<W>) -> fmt::Result {
        let month = self.name();
        f.pad(month)
    }
}

impl Weekday {
    /// The weekday's name.
    pub fn name(self) -> &'static str
        ensures { result.now ≡ weekday_name self }
    {
        match self {
            Weekday::Monday => "Monday",
            Weekday::Tuesday => "Tuesday",
            Weekday::Wednesday => "Wednesday",
            Weekday::Thursday => "Thursday",
            Weekday::Friday => "Friday",
            Weekday::Saturday => "Saturday",
            Weekday::Sunday => "Sunday",
        }
    }
}

impl fmt::Display for Weekday {
    ghost output = { λ w. Some (weekday_name w) };

    ghost styled_output = { λ w spec. Some (padded spec (weekday_name w)) };

    fn fmt<W: fmt::Write>(&self, f: &mut fmt::Formatter<W>) -> fmt::Result {
        let weekday = self.name();
        f.pad(weekday)
    }
}
