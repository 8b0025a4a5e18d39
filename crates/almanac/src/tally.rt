//! How many days trade.
ghost use Rattle.std.specs.Prelude.{◌≡◌, ◌+◌, min, if◌then◌else◌};
ghost use Rattle.calendar.specs.Meaning.{known};
ghost use Rattle.almanac.specs.Tallies.{tallied, is_full, is_half};

use calendar::calendar::Calendar;
use calendar::day::Kind;

/// How many full and half trading days there are.
#[derive(Clone, Copy, PartialEq, Eq, Debug)]
pub struct Tally {
    pub full: u32,
    pub half: u32,
}

impl Tally {
    /// The tally with one more day of that kind; a count stops at the largest number of 32 bits.
    fn with(self, kind: Kind) -> Tally
        ensures full { result.full ≡ min (self.full + (if is_full kind then 1 else 0)) 4294967295 }
        ensures half { result.half ≡ min (self.half + (if is_half kind then 1 else 0)) 4294967295 }
    {
        match kind {
            Kind::Closed => self,
            Kind::Half => Tally {
                half: self.half.saturating_add(1),
                ..self
            },
            Kind::Full => Tally {
                full: self.full.saturating_add(1),
                ..self
            },
        }
    }
}

/// What the calendar knows of the day's kind; a day that it does not know counts as closed.
fn kind_on<C: Calendar>(calendar: &C, first: u32, after: u32) -> Kind
    ensures { result ≡ (if known (C.meaning calendar.now) (first + after) then (C.meaning calendar.now).kind (first + after) else Kind.Closed) }
{
    first
        .checked_add(after)
        .and_then(|day| calendar.ask(day))
        .map_or(Kind::Closed, |known| known.kind)
}

/// The tally of the `days` days from `first` on.
pub fn tally_of<C: Calendar>(calendar: &C, first: u32, days: u32) -> Tally
    ensures { result ≡ tallied (C.meaning calendar.now) first days }
{
    // A `for` over numbers of days, which index nothing: `fold` would say the same in one expression, with a closure in it.
    let mut tally = Tally { full: 0, half: 0 };
    for after in 0..days {
        tally = tally.with(kind_on(calendar, first, after));
    }
    tally
}
