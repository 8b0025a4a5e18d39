//! The calendar by rule.
ghost use Rattle.std.specs.Prelude.{◌≡◌};
ghost use Rattle.civil.specs.Dates.{date_of};
ghost use Rattle.calendar.specs.Rule.{by_rule, yearly_closing, early_closing, is_closed, kind_on, offset_on};
ghost use Rattle.calendar.specs.Lawful.{rule_lawful};

use super::calendar::Calendar;
use super::day::{Day, Kind};
use super::easter::easter_sunday;
use civil::date::Date;
use civil::month::Month;
use civil::weekday::{Weekday, last_sunday};

/// 1 January 2000.
pub const FIRST_DAY: u32 = 10_957;

/// 31 December 2199.
pub const LAST_DAY: u32 = 84_005;

/// How far Irish time is ahead of UTC in summer, in seconds.
pub const SUMMER: u32 = 3_600;

/// The calendar by rule, for 200 years.
#[derive(Clone, Copy)]
pub struct RuleCalendar;

// Beside almanac's `Closing`, which names the closings: the rule asks for no name, and closes early and on weekends too.
/// Is the market closed each year on this date?
fn is_yearly_closing(date: Date) -> bool
    ensures { result ≡ yearly_closing date }
{
    matches!(
        (date.month, date.day),
        (Month::January | Month::May, 1) | (Month::December, 25 | 26)
    )
}

/// Does the market close early on this date?
fn is_early_closing(date: Date) -> bool
    ensures { result ≡ early_closing date }
{
    matches!((date.month, date.day), (Month::December, 24 | 31))
}

/// A day with its date.
#[derive(Clone, Copy)]
struct DatedDay {
    day: u32,
    date: Date,
}

impl DatedDay {
    fn of(day: u32) -> DatedDay
        ensures { (result.day ≡ day) × (result.date ≡ date_of day) }
    {
        DatedDay {
            day,
            date: Date::of(day),
        }
    }

    /// Is the market closed on the day?
    fn is_closed(self) -> bool
        ensures { result ≡ is_closed self.day self.date }
    {
        let easter = easter_sunday(self.date.year);
        let day = self.day as u64;
        Weekday::of(self.day).is_weekend()
            || is_yearly_closing(self.date)
            || day + 2 == easter
            || day == easter + 1
    }

    fn kind(self) -> Kind
        ensures { result ≡ kind_on self.day self.date }
    {
        if self.is_closed() {
            Kind::Closed
        } else if is_early_closing(self.date) {
            Kind::Half
        } else {
            Kind::Full
        }
    }

    fn offset(self) -> u32
        ensures { result ≡ offset_on self.day self.date }
    {
        let spring = last_sunday(self.date.year, Month::March);
        let autumn = last_sunday(self.date.year, Month::October);
        if (spring..autumn).contains(&(self.day as u64)) {
            SUMMER
        } else {
            0
        }
    }
}

impl Calendar for RuleCalendar {
    ghost meaning = { λ _. by_rule };

    ghost lawful = { λ _. rule_lawful };

    fn ask(&self, day: u32) -> Option<Day> {
        if !(FIRST_DAY..=LAST_DAY).contains(&day) {
            return None;
        }
        let dated = DatedDay::of(day);
        Some(Day {
            kind: dated.kind(),
            offset: dated.offset(),
        })
    }
}
