//! The calendar from a list of trading days.
ghost use Rattle.std.specs.Prelude.{◌≡◌, ◌≤◌, true};
ghost use Rattle.calendar.specs.Listed.{rise_within};

use super::day::ListedDay;

/// A calendar that reads the caller's list: its days trade, and every other day of the span is closed.
#[derive(Drop)]
pub struct ListedCalendar<'a> {
    pub(crate) first: u32,
    pub(crate) last: u32,
    pub(crate) days: &'a [ListedDay],
    ghost short: { last ≤ 84005 },
    ghost rises: { rise_within first last days.now ≡ true },
}
