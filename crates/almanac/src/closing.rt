//! The names of the closings.
ghost use Rattle.std.specs.Prelude.{◌≡◌, Some};
ghost use Rattle.std.specs.Fmt.{padded};
ghost use Rattle.almanac.specs.Closings.{closing_on, closing_name};

use calendar::easter::easter_sunday;
use civil::date::Date;
use civil::month::Month;
use std::fmt;

/// A day of the year on which the market is closed, whatever its weekday.
#[derive(Clone, Copy, PartialEq, Eq, Debug)]
pub enum Closing {
    NewYearsDay,
    GoodFriday,
    EasterMonday,
    MayDay,
    ChristmasDay,
    StStephensDay,
}

impl Closing {
    /// The closing that falls on the day, if one does.
    pub fn on(day: u32) -> Option<Closing>
        ensures { result ≡ closing_on day }
    {
        let date = Date::of(day);
        let easter = easter_sunday(date.year);
        match (date.month, date.day) {
            (Month::January, 1) => Some(Closing::NewYearsDay),
            (Month::May, 1) => Some(Closing::MayDay),
            (Month::December, 25) => Some(Closing::ChristmasDay),
            (Month::December, 26) => Some(Closing::StStephensDay),
            _ if day as u64 + 2 == easter => Some(Closing::GoodFriday),
            _ if day as u64 == easter + 1 => Some(Closing::EasterMonday),
            _ => None,
        }
    }

    /// The closing's name.
    pub fn name(self) -> &'static str
        ensures { result.now ≡ closing_name self }
    {
        match self {
            Closing::NewYearsDay => "New Year's Day",
            Closing::GoodFriday => "Good Friday",
            Closing::EasterMonday => "Easter Monday",
            Closing::MayDay => "May Day",
            Closing::ChristmasDay => "Christmas Day",
            Closing::StStephensDay => "St Stephen's Day",
        }
    }
}

// As civil's Month and Weekday print their names: an impl by a macro is not allowed.
impl fmt::Display for Closing {
    ghost output = { λ c. Some (closing_name c) };

    ghost styled_output = { λ c spec. Some (padded spec (closing_name c)) };

    fn fmt<W: fmt::Write>(&self, f: &mut fmt::Formatter<W>) -> fmt::Result {
        let closing = self.name();
        f.pad(closing)
    }
}
