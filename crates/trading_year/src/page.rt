//! A year's trading calendar as a page.
use super::year::Year;
use almanac::closing::Closing;
use almanac::tally::{Tally, tally_of};
use calendar::calendar::Calendar;
use calendar::day::Kind;
use calendar::hours::{DAY, hours_of};
use calendar::rule::RuleCalendar;
use civil::date::Date;
use civil::month::Month;
use civil::weekday::Weekday;
use std::cmp::Ordering;
use std::fmt::Display;
use std::io;
use std::io::Write;
use std::ops::Range;

fn print_dated<W: Write, T: Display + Drop>(out: &mut W, day: u32, text: T) -> io::Result<()> {
    let date = Date::of(day);
    let weekday = Weekday::of(day);
    writeln!(out, "  {date} {weekday:<9}  {text}")
}

fn print_closings<W: Write>(out: &mut W, year: Year) -> io::Result<()> {
    writeln!(out, "Closed on weekdays")?;
    for day in year.days() {
        if let Some(closing) = Closing::on(day)
            && !Weekday::of(day).is_weekend()
        {
            print_dated(out, day, closing)?;
        }
    }
    Ok(())
}

/// A half day, with the Irish offset and the moment of its close.
#[derive(Clone, Copy)]
struct HalfDay {
    day: u32,
    offset: u32,
    close: u64,
}

impl HalfDay {
    /// The half day that the day is, if it is one.
    fn on(day: u32) -> Option<HalfDay> {
        let known = RuleCalendar
            .ask(day)
            .filter(|known| known.kind == Kind::Half)?;
        let hours = hours_of(&RuleCalendar, day)?;
        Some(HalfDay {
            day,
            offset: known.offset,
            close: hours.close,
        })
    }
}

fn print_half_day<W: Write>(out: &mut W, half_day: HalfDay) -> io::Result<()> {
    let HalfDay { day, offset, close } = half_day;
    let date = Date::of(day);
    let weekday = Weekday::of(day);
    let utc = close % DAY / 60;
    let irish = (close % DAY + offset as u64) / 60;
    writeln!(
        out,
        "  {date} {weekday:<9}  closes {:02}:{:02} Irish time, {:02}:{:02} UTC",
        irish / 60,
        irish % 60,
        utc / 60,
        utc % 60
    )
}

fn print_half_days<W: Write>(out: &mut W, year: Year) -> io::Result<()> {
    writeln!(out, "Half days")?;
    let mut half_days = year.days().filter_map(HalfDay::on).peekable();
    if half_days.peek().is_none() {
        return writeln!(out, "  none");
    }
    for half_day in half_days {
        print_half_day(out, half_day)?;
    }
    Ok(())
}

fn print_clock_changes<W: Write>(out: &mut W, year: Year) -> io::Result<()> {
    writeln!(out, "Irish clocks change")?;
    let mut before = 0;
    for day in year.days() {
        if let Some(known) = RuleCalendar.ask(day) {
            match known.offset.cmp(&before) {
                Ordering::Greater => print_dated(out, day, "forward, to one hour ahead of UTC")?,
                Ordering::Less => print_dated(out, day, "back, to UTC")?,
                Ordering::Equal => {}
            }
            before = known.offset;
        }
    }
    Ok(())
}

fn tally(days: Range<u32>) -> Tally {
    tally_of(&RuleCalendar, days.start, days.len() as u32)
}

fn print_tally<W: Write, T: Display + Drop>(out: &mut W, name: T, tally: Tally) -> io::Result<()> {
    let Tally { full, half } = tally;
    let all = full.saturating_add(half);
    writeln!(out, "  {name:<9}  {full:>5} {half:>5} {all:>5}")
}

fn print_tallies<W: Write>(out: &mut W, year: Year) -> io::Result<()> {
    writeln!(out, "Trading days  full  half   all")?;
    for month in Month::ALL {
        print_tally(out, month, tally(year.days_of(month)))?;
    }
    print_tally(out, "Year", tally(year.days()))
}

/// Prints the page of a year.
pub(super) fn print_page<W: Write>(out: &mut W, year: Year) -> io::Result<()> {
    writeln!(out, "Trading calendar {year}")?;
    writeln!(out)?;
    let easter = Date::of(year.easter());
    writeln!(out, "Easter Sunday {easter}")?;
    writeln!(out)?;
    print_closings(out, year)?;
    writeln!(out)?;
    print_half_days(out, year)?;
    writeln!(out)?;
    print_clock_changes(out, year)?;
    writeln!(out)?;
    print_tallies(out, year)
}
