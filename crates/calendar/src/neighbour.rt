//! The trading days beside a day, for every calendar.
ghost use Rattle.std.specs.Prelude.{◌≡◌, ℕ, Option};
ghost use Rattle.calendar.specs.Meaning.{trading};
ghost use Rattle.calendar.specs.Trading.{nearest, days_by, next_trading_day, previous_trading_day, Answers, NextWithin, PreviousWithin};
ghost use Rattle.calendar.specs.Steps.{Gives, later, earlier};

use super::calendar::Calendar;

/// A neighbour is at most so many days away.
const REACH: u32 = 14;

/// Is the day a known trading day?
pub fn is_trading_day<C: Calendar>(calendar: &C, day: u32) -> bool
    ensures { result ≡ trading (C.meaning calendar.now) day }
{
    calendar.ask(day).is_some_and(|known| known.kind.trades())
}

/// The day after this one; none that no number names.
fn day_after(day: u32) -> Option<u32>
    ensures { result ≡ later day }
{
    day.checked_add(1)
}

/// The day before this one; none before day 0.
fn day_before(day: u32) -> Option<u32>
    ensures { result ≡ earlier day }
{
    day.checked_sub(1)
}

/// The first trading day among the `reach` days that `beside` gives one after another, all days up to it being known.
fn neighbour<C: Calendar, B: Fn(u32) -> Option<u32>>(
    calendar: &C,
    day: u32,
    reach: u32,
    beside: B,
) -> Option<u32>
    requires { B.IsAlwaysCallable beside }
    ensures { (step : ℕ → Option ℕ) → Gives (B.post beside) step → result ≡ nearest (C.meaning calendar.now) (days_by step reach day) }
{
    let mut at = day;
    for _tried in 0..reach {
        at = beside(at)?;
        if calendar.ask(at)?.kind.trades() {
            return Some(at);
        }
    }
    None
}

/// The nearest trading day after `day`, within 14 days and with all days up to it known.
pub fn next_trading_day<C: Calendar>(calendar: &C, day: u32) -> Option<u32>
    ensures value { result ≡ next_trading_day (C.meaning calendar.now) day }
    ensures nearest { Answers (NextWithin (C.meaning calendar.now) 14 day) result }
{
    neighbour(calendar, day, REACH, day_after)
}

/// The nearest trading day before `day`, within 14 days and with all days down to it known.
pub fn previous_trading_day<C: Calendar>(calendar: &C, day: u32) -> Option<u32>
    ensures value { result ≡ previous_trading_day (C.meaning calendar.now) day }
    ensures nearest { Answers (PreviousWithin (C.meaning calendar.now) 14 day) result }
{
    neighbour(calendar, day, REACH, day_before)
}
