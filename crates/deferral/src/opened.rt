//! A trading day that is opened, with its neighbours.
ghost use Rattle.std.specs.Prelude.{◌≡◌, Some, None, if◌then◌else◌};
ghost use Rattle.std.specs.Option.{option_map};
ghost use Rattle.calendar.specs.Meaning.{trading};
ghost use Rattle.calendar.specs.Trading.{next_trading_day, previous_trading_day};
ghost use Rattle.deferral.specs.Deadlines.{day_of, timed, noted, opened, open_at, deadlines_for};

use super::deadlines::Deadlines;
use calendar::calendar::Calendar;
use calendar::hours::{DAY, Hours, hours_of};
use calendar::neighbour::{next_trading_day, previous_trading_day};
use refusal::Refusal;

/// A trading day, its neighbours and hours, and the deadlines of an execution in it and in the trading day before it.
#[derive(Clone, Copy, PartialEq, Eq, Debug)]
pub struct Opened {
    pub day: u32,
    pub previous: u32,
    pub next: u32,
    pub hours: Hours,
    pub today: Deadlines,
    pub before: Deadlines,
}

/// The day of a moment.
fn day_of(moment: u64) -> u64
    ensures { result ≡ day_of moment }
{
    moment / DAY
}

/// A trading day and its hours.
#[derive(Clone, Copy)]
struct TradingDay {
    number: u32,
    hours: Hours,
}

/// The day with its hours, where it is a known trading day.
fn trading_day<C: Calendar>(calendar: &C, number: u32) -> Option<TradingDay>
    ensures { result ≡ if trading (C.meaning calendar.now) number then Some (timed (C.meaning calendar.now) number) else None }
{
    let hours = hours_of(calendar, number)?;
    Some(TradingDay { number, hours })
}

/// The trading day before, with its hours.
fn trading_day_before<C: Calendar>(calendar: &C, day: u32) -> Option<TradingDay>
    ensures { result ≡ option_map (timed (C.meaning calendar.now)) (previous_trading_day (C.meaning calendar.now) day) }
{
    trading_day(calendar, previous_trading_day(calendar, day)?)
}

/// The trading day after, with its hours.
fn trading_day_after<C: Calendar>(calendar: &C, day: u32) -> Option<TradingDay>
    ensures { result ≡ option_map (timed (C.meaning calendar.now)) (next_trading_day (C.meaning calendar.now) day) }
{
    trading_day(calendar, next_trading_day(calendar, day)?)
}

/// Notes a day with its neighbours.
fn noted(day: TradingDay, before: TradingDay, after: TradingDay) -> Opened
    ensures { result ≡ noted day.number before.number after.number day.hours before.hours after.hours }
{
    Opened {
        day: day.number,
        previous: before.number,
        next: after.number,
        hours: day.hours,
        today: Deadlines {
            close: day.hours.close,
            next: after.hours,
        },
        before: Deadlines {
            close: before.hours.close,
            next: day.hours,
        },
    }
}

/// Opens the day: refused where it is no known trading day, then where a neighbour is not found.
pub fn open_day<C: Calendar>(calendar: &C, day: u32) -> Result<Opened, Refusal>
    ensures { result ≡ opened (C.meaning calendar.now) day }
{
    let today = trading_day(calendar, day).ok_or(Refusal::NoTradingDay)?;
    let before = trading_day_before(calendar, day).ok_or(Refusal::NoNeighbour)?;
    let after = trading_day_after(calendar, day).ok_or(Refusal::NoNeighbour)?;
    Ok(noted(today, before, after))
}

/// Opens the day of the clock.
pub fn open_clock_day<C: Calendar>(calendar: &C, clock: u64) -> Result<Opened, Refusal>
    ensures { result ≡ opened (C.meaning calendar.now) (day_of clock) }
{
    let day = u32::try_from(day_of(clock)).map_err(|_| Refusal::NoTradingDay)?;
    open_day(calendar, day)
}

impl Opened {
    /// Is the market open at the clock?
    pub fn is_open_at(&self, clock: u64) -> bool
        ensures { result ≡ open_at self.now clock }
    {
        (self.hours.opening..self.hours.close).contains(&clock)
    }

    /// The deadlines of an execution: none where it is after the clock, or neither in this day nor in the trading day before it.
    pub fn deadlines_for(&self, clock: u64, execution: u64) -> Option<Deadlines>
        ensures { result ≡ deadlines_for self.now clock execution }
    {
        if execution > clock {
            return None;
        }
        let day = day_of(execution);
        if day == self.day as u64 {
            Some(self.today)
        } else if day == self.previous as u64 {
            Some(self.before)
        } else {
            None
        }
    }
}
