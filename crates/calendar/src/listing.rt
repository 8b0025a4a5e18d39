//! Reading a list, and answering from it.
ghost use Rattle.std.specs.Prelude.{◌≡◌, [], OnOk, OnErr};
ghost use Rattle.std.specs.Result.{result_map_both};
ghost use Rattle.calendar.specs.Listed.{may_stand, rise_within, reading, listing, listed_day, by_list};
ghost use Rattle.calendar.specs.Lawful.{list_lawful};

use super::calendar::Calendar;
use super::day::{Day, Kind, ListedDay};
use super::listed::ListedCalendar;
use super::rule::{FIRST_DAY, LAST_DAY, SUMMER};
use refusal::Refusal;

// First, last and days are three parameters: the struct that would hold them is `ListedCalendar` itself, whose days rise.
/// May the day stand in a list of days from `first` to `last`?
fn may_stand(first: u64, last: u32, listed: &ListedDay) -> bool
    ensures { result ≡ may_stand first last listed.now }
{
    (first..=last as u64).contains(&(listed.day as u64))
        && listed.kind.trades()
        && matches!(listed.offset, 0 | SUMMER)
}

/// Do the days rise strictly from the first to the last, each of them allowed?
fn rise_within(first: u32, last: u32, days: &[ListedDay]) -> bool
    ensures { result ≡ rise_within first last days.now }
{
    // One pass, which `is_sorted_by` and `all` would make two; `from` is the least day that may still come.
    let mut from = first as u64;
    for listed in days {
        if !may_stand(from, last, listed) {
            return false;
        }
        from = listed.day as u64 + 1;
    }
    true
}

impl<'a> ListedCalendar<'a> {
    /// What the list says of the day.
    fn look_up(&self, day: u32) -> Day
        ensures { result ≡ listed_day self.now.days.now day }
    {
        match self.days.binary_search_by_key(&day, |listed| listed.day) {
            Ok(at) => Day::from(self.days[at]),
            Err(_) => Day {
                kind: Kind::Closed,
                offset: 0,
            },
        }
    }

    // For a caller that reads list after list: there is a calendar before the first.
    /// A calendar that knows no day until it reads a list.
    pub fn new() -> ListedCalendar<'a>
        ensures { by_list result.first result.last result.days.now ≡ by_list 1 0 [] }
    {
        ListedCalendar {
            first: 1,
            last: 0,
            days: &[],
        }
    }

    /// The calendar of a list of trading days from `first` to `last`.
    pub fn of(first: u32, last: u32, days: &'a [ListedDay]) -> Result<ListedCalendar<'a>, Refusal>
        ensures { result_map_both (λ c. by_list c.first c.last c.days.now) (λ e. e) result ≡ listing first last days.now }
    {
        if first > last || first < FIRST_DAY || last > LAST_DAY || !rise_within(first, last, days) {
            return Err(Refusal::WrongCalendar);
        }
        Ok(ListedCalendar { first, last, days })
    }

    /// Reads a list of trading days from `first` to `last`, in place of what it had read before.
    pub fn read(&mut self, first: u32, last: u32, days: &'a [ListedDay]) -> Result<(), Refusal>
        ensures answer { result ≡ reading first last days.now }
        ensures made { OnOk result (by_list self.new.first self.new.last self.new.days.now ≡ by_list first last days.now) }
        ensures same { OnErr result (self.new ≡ self.old) }
    {
        *self = ListedCalendar::of(first, last, days)?;
        Ok(())
    }
}

impl<'a> Calendar for ListedCalendar<'a> {
    ghost meaning = { λ c. by_list c.first c.last c.days.now };

    ghost lawful = { λ c. list_lawful c.first c.last c.days.now c.short c.rises };

    fn ask(&self, day: u32) -> Option<Day> {
        if !(self.first..=self.last).contains(&day) {
            return None;
        }
        Some(self.look_up(day))
    }
}
